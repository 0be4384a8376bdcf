//! Texts of sources.
ghost use Rattle.std.specs.Prelude.{◌≡◌, ◌<◌, ◌^◌, ℕ, List, length, false, IsTrue, IfOk, IfErr, MatchResult};
ghost use Rattle.wy_top_source.specs.Refusals.{is_no_memory};
ghost use Rattle.wy_top_source.specs.declared.refusal.Refusal.{Refusal};
ghost use Rattle.wy_top_source.specs.texts.Again.{IsAgain};
ghost use Rattle.wy_top_source.specs.texts.Texts.{IsDue, IsRefused, IsText};
ghost use Rattle.wy_top_source.specs.declared.texts.kind.Kind.TheVariants.{Layout, Listing};

use crate::texts::kind::Kind;
use crate::{Refusal, read_program};
use std::alloc::Global;
use wy_gen::typed::listing;
use wy_print::print;
use wy_print_laws::wy_parse_front::{SourceFault, read};

/// The text of this kind that the source has, or the first refusal: of a layout, tokens and program are read; of a listing,
/// names, types and assignment besides. A layout is read again as the same program, places aside, and is its own layout.
/// Linear in the source and the text, beside what flow typing takes.
pub fn text_of(alloc: Global, kind: Kind, source: &[u8]) -> Result<Vec<u8>, Refusal>
    requires { length source.now < 2 ^ 32 }
    ensures text { IfOk result (λ t. IsText kind source.now t.items) }
    ensures again { IfOk result (λ t. IsAgain kind source.now t.items) }
    ensures complete { (t : List ℕ) → IsText kind source.now t → MatchResult result (λ u. u.items ≡ t) (λ e. IsTrue (is_no_memory e)) }
    ensures refused { IfErr result (λ e. is_no_memory e ≡ false → IsRefused kind source.now e) }
    ensures exact { (f : Refusal) → IsDue kind source.now f → MatchResult result (λ t. ⊥) (λ e. is_no_memory e ≡ false → e ≡ f) }
{
    match kind {
        Kind::Layout => laid_out(alloc, source),
        Kind::Listing => listed(alloc, source),
    }
}

// The program, laid out anew.
fn laid_out(alloc: Global, source: &[u8]) -> Result<Vec<u8>, Refusal>
    requires { length source.now < 2 ^ 32 }
    ensures text { IfOk result (λ t. IsText Layout source.now t.items) }
    ensures again { IfOk result (λ t. IsAgain Layout source.now t.items) }
    ensures complete { (t : List ℕ) → IsText Layout source.now t → MatchResult result (λ u. u.items ≡ t) (λ e. IsTrue (is_no_memory e)) }
    ensures refused { IfErr result (λ e. is_no_memory e ≡ false → IsRefused Layout source.now e) }
    ensures exact { (f : Refusal) → IsDue Layout source.now f → MatchResult result (λ t. ⊥) (λ e. is_no_memory e ≡ false → e ≡ f) }
{
    let program = match read(alloc, source) {
        Ok(program) => program,
        Err(fault) => return Err(Refusal::Text(fault)),
    };
    match print(alloc, &program) {
        Ok(text) => Ok(text),
        Err(_) => Err(Refusal::Text(SourceFault::NoMemory)),
    }
}

// The listing of the program's code.
fn listed(alloc: Global, source: &[u8]) -> Result<Vec<u8>, Refusal>
    requires { length source.now < 2 ^ 32 }
    ensures text { IfOk result (λ t. IsText Listing source.now t.items) }
    ensures again { IfOk result (λ t. IsAgain Listing source.now t.items) }
    ensures complete { (t : List ℕ) → IsText Listing source.now t → MatchResult result (λ u. u.items ≡ t) (λ e. IsTrue (is_no_memory e)) }
    ensures refused { IfErr result (λ e. is_no_memory e ≡ false → IsRefused Listing source.now e) }
    ensures exact { (f : Refusal) → IsDue Listing source.now f → MatchResult result (λ t. ⊥) (λ e. is_no_memory e ≡ false → e ≡ f) }
{
    let typed = match read_program(alloc, source) {
        Ok(typed) => typed,
        Err(refusal) => return Err(refusal),
    };
    match listing(alloc, &typed) {
        Ok(text) => Ok(text),
        Err(_) => Err(Refusal::Text(SourceFault::NoMemory)),
    }
}
