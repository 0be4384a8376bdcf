//! Lines at the front of a text.
ghost use Rattle.std.specs.Prelude.{MatchOption};
ghost use Rattle.wy_cache_text.specs.Lines.{IsLineAt, NoLine, AreLinesAt, NoLines};

/// What follows the first line and its end, if there is such a line. It takes no memory.
#[tactic(auto, using(crate::proofs::LineLemmas::line_steps))]
pub fn behind_line(text: &[u8]) -> Option<&[u8]>
    ensures value { MatchOption result (NoLine text.now) (λ rest. IsLineAt text.now rest.now) }
{
    for end in 0..text.len() {
        if text[end] == 10 {
            return Some(&text[end + 1..]);
        }
    }
    None
}

/// So many lines that stand first, each with its end, and what follows. It takes no memory, and time linear in the lines.
pub fn lines(text: &[u8], count: u64) -> Option<(&[u8], &[u8])>
    ensures value { MatchOption result (NoLines count text.now) (λ p. AreLinesAt count text.now p.0.now p.1.now) }
{
    let mut rest = text;
    for _line in 0..count {
        match behind_line(rest) {
            None => return None,
            Some(more) => rest = more,
        }
    }
    let front = text.len() - rest.len();
    Some((&text[..front], rest))
}
