//! Steps on single symbols, for symbols that can be copied, as bytes and characters.
ghost use Rattle.std.specs.Prelude.{◌≡◌, Ok};
ghost use Rattle.wy_reading.specs.Reader as reader;
ghost use Rattle.wy_reading.specs.Reader.{Reads, ReadsPart};
ghost use Rattle.wy_reading.specs.Rule.{heads};

use crate::stop::Stop;

/// A class of symbols: which symbols pass, by the definition and by the code.
pub trait Class<S> {
    ghost use Rattle.std.specs.Prelude.{◌≡◌, Bool};

    ghost has: { Self → S → Bool };

    /// Whether the symbol is in the class.
    fn has(&self, symbol: S) -> bool
        ensures { result ≡ has self.now symbol };
}

/// Whether a symbol of the class stands first.
pub fn next_is<S: Copy, C: Class<S> + Copy>(text: &[S], class: C) -> bool
    ensures { result ≡ heads (C.has class) text.now }
{
    match text.first() {
        None => false,
        Some(first) => class.has(*first),
    }
}

/// A symbol of the class.
pub fn one<S: Copy, X, C: Class<S> + Copy>(text: &[S], class: C) -> Result<(S, &[S]), Stop<X>>
    ensures { Reads (reader.one (C.has class) text.now) result }
{
    match text {
        [first, rest @ ..] if class.has(*first) => Ok((*first, rest)),
        _ => Err(Stop::Unexpected(text.len())),
    }
}

/// A symbol of the first class, and all behind it that are of the second. It takes no memory.
#[tactic(auto, using(crate::proofs::Turns::word_steps))]
pub fn word<S: Copy, X, C: Class<S> + Copy, D: Class<S> + Copy>(
    text: &[S],
    start: C,
    part: D,
) -> Result<(&[S], &[S]), Stop<X>>
    ensures { ReadsPart (reader.word (C.has start) (D.has part) text.now) result }
{
    if !next_is(text, start) {
        return Err(Stop::Unexpected(text.len()));
    }
    for end in 1..text.len() {
        if !part.has(text[end]) {
            return Ok((&text[..end], &text[end..]));
        }
    }
    Ok((text, &text[text.len()..]))
}

/// What stands behind the symbols of the class that stand first. It takes no memory.
#[tactic(auto, using(crate::proofs::Turns::skip_steps))]
pub fn skip<S: Copy, X, C: Class<S> + Copy>(text: &[S], class: C) -> Result<((), &[S]), Stop<X>>
    ensures { Reads (reader.skip (C.has class) text.now) result }
{
    for end in 0..text.len() {
        if !class.has(text[end]) {
            return Ok(((), &text[end..]));
        }
    }
    Ok(((), &text[text.len()..]))
}

/// The symbols of the word, one after the other.
pub fn spelled<'a, S: PartialEq + Copy, X>(
    text: &'a [S],
    word: &[S],
) -> Result<((), &'a [S]), Stop<X>>
    ensures { Reads (reader.spelled S.eq word.now text.now) result }
{
    match word {
        [] => Ok(((), text)),
        [first, others @ ..] => match text {
            [symbol, rest @ ..] if *first == *symbol => spelled(rest, others),
            _ => Err(Stop::Unexpected(text.len())),
        },
    }
}
