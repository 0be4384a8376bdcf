//! The tree of a certificate's steps, line by line.
ghost use Rattle.std.specs.Prelude.{◌≡◌, ◌<◌, ◌≤◌, ◌+◌, ◌^◌, [], IfOk, MatchOption, length};
ghost use Rattle.wy_cert.specs.Only.{Answers};
ghost use Rattle.wy_cert.specs.Steps.{steps_of, NamesItsTerms};
ghost use Rattle.wy_cert.specs.File.{IsLine, NoLine, ReadsTree, tree_of};

use crate::fault::CertFault;
use crate::line::step_of;
use crate::step::Cert;
use std::alloc::Global;
use wy_term_text::Terms;

/// The first line, without its end, and what follows the end.
#[tactic(auto, using(crate::proofs::FirstLine::line_steps))]
pub(crate) fn first_line(text: &[u8]) -> Option<(&[u8], &[u8])>
    ensures value { MatchOption result (NoLine text.now) (λ p. IsLine text.now p.0.now p.1.now) }
{
    for end in 0..text.len() {
        if text[end] == 10 {
            return Some((&text[..end], &text[end + 1..]));
        }
    }
    None
}

/// The certificate whose steps stand first, what follows it and at which line, in time linear in its lines beside what
/// making terms takes.
pub(crate) fn tree(
    alloc: Global,
    text: &[u8],
    line: u64,
    products: bool,
) -> Result<(Cert, &[u8], u64), CertFault>
    requires room { line + length text.now < 2 ^ 64 }
    requires some { 0 < line }
    ensures value { Answers (ReadsTree products [] 1 line text.now) tree_of result }
    ensures names { IfOk result (λ p. NamesItsTerms p.0) }
    ensures within { IfOk result (λ p. p.2 + length p.1.now ≤ line + length text.now) }
    ensures counts { IfOk result (λ p. 0 < p.2) }
{
    let mut terms = Terms::new(alloc);
    let mut steps = Vec::new(alloc);
    let mut lacking = 1u64;
    let mut rest = text;
    let mut line = line;
    for _turn in 0..u64::MAX {
        if lacking == 0 {
            return Ok((Cert { terms, steps }, rest, line));
        }
        let Some((first, more)) = first_line(rest) else {
            return Err(CertFault::Truncated(line));
        };
        let Some(step) = step_of(&mut terms, first, products)? else {
            return Err(CertFault::BadStep(line));
        };
        lacking = lacking - 1 + step.children();
        steps.push(step)?;
        rest = more;
        line += 1;
    }
    Err(CertFault::NoMemory)
}
