//! What a line of a step begins with.
ghost use Rattle.std.specs.Prelude.{MatchOption};
ghost use Rattle.wy_data.specs.scan.Front.{IsBehind, NotBehind};
ghost use Rattle.wy_cert.specs.Lines.{word_of};

use wy_data::scan::behind;

/// A kind of step, by the word that its line begins with.
#[derive(Clone, Copy)]
pub enum Verb {
    Split,
    Shut,
    Chain,
    Clash,
    Sum,
    Cut,
    Inst,
    Wit,
    Fact,
    Prod,
}

/// The word that the line begins with, and what follows it.
#[tactic(auto, using(crate::proofs::VerbLemmas::no_verb))]
pub(crate) fn verb_of(line: &[u8]) -> Option<(Verb, &[u8])>
    ensures value { MatchOption result ((v : Verb) → NotBehind (word_of v) line.now) (λ p. IsBehind (word_of p.0) line.now p.1.now) }
{
    if let Some(rest) = behind(line, b"split ") {
        return Some((Verb::Split, rest));
    }
    if let Some(rest) = behind(line, b"shut") {
        return Some((Verb::Shut, rest));
    }
    if let Some(rest) = behind(line, b"chain ") {
        return Some((Verb::Chain, rest));
    }
    if let Some(rest) = behind(line, b"clash ") {
        return Some((Verb::Clash, rest));
    }
    if let Some(rest) = behind(line, b"sum") {
        return Some((Verb::Sum, rest));
    }
    if let Some(rest) = behind(line, b"cut ") {
        return Some((Verb::Cut, rest));
    }
    if let Some(rest) = behind(line, b"inst ") {
        return Some((Verb::Inst, rest));
    }
    if let Some(rest) = behind(line, b"wit ") {
        return Some((Verb::Wit, rest));
    }
    if let Some(rest) = behind(line, b"fact ") {
        return Some((Verb::Fact, rest));
    }
    if let Some(rest) = behind(line, b"prod ") {
        return Some((Verb::Prod, rest));
    }
    None
}
