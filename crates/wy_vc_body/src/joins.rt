//! Where paths come together.
ghost use Rattle.std.specs.Prelude.{◌≡◌, ◌≤◌, length as count_of, take, Some, IfOk, OnOk};
ghost use Rattle.wy_vc_exprs.specs.wy_vc_spec.Joins as spec;
ghost use Rattle.wy_vc_body.specs.Paths.{ArePaths, IsPath, Meets, seen_end, seen_ends, seen_paths};
ghost use Rattle.wy_vc_exprs.specs.Numbered.{trees_of};
ghost use Rattle.wy_vc_exprs.specs.State.{IsSound, hyps_of};

use crate::here::Here;
use crate::known::{known_behind, path_formulas};
use crate::paths::Path;
use std::alloc::Global;
use wy_data::Name;
use wy_term::NoMemory;
use wy_vc_exprs::{Walk, disjunction};

// Behind paths that parted behind what is assumed: a new name for each variable whose terms differ, and one of the paths was taken.
fn join(alloc: Global, walk: &mut Walk, words: &[Name], paths: &[Path]) -> Result<Here, NoMemory>
    requires sound { IsSound walk.old }
    requires paths { ArePaths walk.old.maker.terms paths.now }
    ensures value { IfOk result (λ h. Meets walk.old walk.new (count_of walk.old.hyps.items) (Some h) (spec.join words.now (hyps_of walk.old) (seen_paths walk.old.maker.terms paths.now) walk.old.maker.count)) }
    ensures node { OnOk result (walk.new.maker.node ≡ walk.old.maker.node) }
{
    let all = known_behind(alloc, &mut walk.maker, words, paths)?;
    let formulas = path_formulas(alloc, &mut walk.maker, all.names.as_slice(), paths)?;
    let one = disjunction(&mut walk.maker.terms, formulas)?;
    walk.assume(one)?;
    Ok(all.here)
}

// One path goes on as it is.
fn go_on(walk: &mut Walk, path: Path) -> Result<Here, NoMemory>
    requires sound { IsSound walk.old }
    requires path { IsPath walk.old.maker.terms path }
    ensures value { IfOk result (λ h. Meets walk.old walk.new (count_of walk.old.hyps.items) (Some h) (record { count = walk.old.maker.count; ends = Some (seen_end walk.old.maker.terms walk.old.hyps.items path) })) }
    ensures node { OnOk result (walk.new.maker.node ≡ walk.old.maker.node) }
{
    walk.hyps.extend_from_slice(path.since.as_slice())?;
    Ok(path.here)
}

/// Behind paths that parted behind the first so many hypotheses: None where there are none. One path alone goes on as it is; behind two or
/// more there is a new name for each variable whose terms differ, and one of the paths was taken. Linear in what is known on the paths.
pub fn meet(
    alloc: Global,
    walk: &mut Walk,
    words: &[Name],
    base: usize,
    paths: Vec<Path>,
) -> Result<Option<Here>, NoMemory>
    requires sound { IsSound walk.old }
    requires base { base ≤ count_of walk.old.hyps.items }
    requires paths { ArePaths walk.old.maker.terms paths.items }
    ensures value { IfOk result (λ h. Meets walk.old walk.new base h (spec.meet words.now (trees_of walk.old.maker.terms (take base walk.old.hyps.items)) (seen_ends walk.old.maker.terms (take base walk.old.hyps.items) paths.items) walk.old.maker.count)) }
    ensures node { OnOk result (walk.new.maker.node ≡ walk.old.maker.node) }
{
    walk.back_to(base);
    let all = paths.as_slice();
    if all.len() > 1 {
        let here = join(alloc, walk, words, all)?;
        return Ok(Some(here));
    }
    let mut paths = paths;
    match paths.pop() {
        None => Ok(None),
        Some(path) => {
            let here = go_on(walk, path)?;
            Ok(Some(here))
        }
    }
}
