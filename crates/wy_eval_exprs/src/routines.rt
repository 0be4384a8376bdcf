//! Which declaration a number names.
ghost use Rattle.std.specs.Prelude.{◌≡◌, MatchOption, map};
ghost use Rattle.wy_core.specs.CoreSeen.{seen_decl, seen_routine};
ghost use Rattle.wy_core.specs.CoreTree.{routines_of};
ghost use Rattle.wy_sem.specs.Evaluation.{Declared, callee};
ghost use Rattle.wy_eval_exprs.specs.Verdicts.{NoRoutine};

use wy_core::{Decl, Routine};

/// The declared function or method with this number; none where there is none, as for the numbers of
/// `print` and `print_int`. It takes time linear in the declarations.
pub fn routine_at(decls: &[Decl], entry: u32) -> Option<&Routine>
    ensures value { MatchOption result (NoRoutine (callee (routines_of (map seen_decl decls.now)) entry)) (λ routine. callee (routines_of (map seen_decl decls.now)) entry ≡ Declared (seen_routine routine.now)) }
{
    let mut left = entry;
    for decl in decls {
        match decl {
            Decl::Alias(_) => {}
            Decl::Routine(routine) => {
                if left == 0 {
                    return Some(routine);
                }
                left -= 1;
            }
        }
    }
    None
}
