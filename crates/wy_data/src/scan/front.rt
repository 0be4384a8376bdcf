//! Bytes at the front of a text.
ghost use Rattle.std.specs.Prelude.{◌≡◌, IfSome, MatchOption};
ghost use Rattle.wy_data.specs.scan.Front as front;
ghost use Rattle.wy_data.specs.scan.Front.{IsRun, IsBehind, NotBehind};

/// Whether the byte is a digit.
pub fn is_digit(byte: u8) -> bool
    ensures value { result ≡ front.is_digit byte }
{
    48 <= byte && byte <= 57
}

/// Whether the byte may stand in a word: a letter, a digit, `_`, or a byte of a character that is not ASCII.
pub fn is_word_byte(byte: u8) -> bool
    ensures value { result ≡ front.is_word_byte byte }
{
    (97 <= byte && byte <= 122)
        || (65 <= byte && byte <= 90)
        || is_digit(byte)
        || byte == 95
        || 128 <= byte
}

/// The digits that stand first, and what follows them. It takes no memory.
#[tactic(auto, using(crate::proofs::scan_lemmas::FrontLemmas::front_steps))]
pub fn digits(text: &[u8]) -> (&[u8], &[u8])
    ensures value { IsRun front.is_digit text.now result.0.now result.1.now }
{
    for end in 0..text.len() {
        if !is_digit(text[end]) {
            return (&text[..end], &text[end..]);
        }
    }
    (text, &text[text.len()..])
}

/// The bytes of a word that stand first, and what follows them. It takes no memory.
#[tactic(auto, using(crate::proofs::scan_lemmas::FrontLemmas::front_steps))]
pub fn run(text: &[u8]) -> (&[u8], &[u8])
    ensures value { IsRun front.is_word_byte text.now result.0.now result.1.now }
{
    for end in 0..text.len() {
        if !is_word_byte(text[end]) {
            return (&text[..end], &text[end..]);
        }
    }
    (text, &text[text.len()..])
}

/// The text behind these bytes, if it begins with them. It takes no memory.
pub fn behind<'a>(text: &'a [u8], word: &[u8]) -> Option<&'a [u8]>
    ensures value { MatchOption result (NotBehind word.now text.now) (λ rest. IsBehind word.now text.now rest.now) }
{
    match word {
        [] => Some(text),
        [first, others @ ..] => match text {
            [byte, rest @ ..] if *byte == *first => behind(rest, others),
            _ => None,
        },
    }
}
