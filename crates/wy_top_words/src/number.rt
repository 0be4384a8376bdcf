//! Numbers on the command line.
ghost use Rattle.std.specs.Prelude.{◌≡◌, ◌≤◌, IfSome, option_map};
ghost use Rattle.wy_top_words.specs.CommandLine.{bounded, budget_within, number_of, steps_within, workers_within};
ghost use Rattle.wy_top_words.specs.Plain.{text_in};

/// The most digits that a number may have.
const MOST_DIGITS: usize = 13;

/// The number that decimal digits alone write, from one to 13 of them.
pub fn number(text: &str) -> Option<u64>
    ensures value { result ≡ number_of text.now }
{
    let bytes = text.as_bytes();
    if bytes.is_empty() || bytes.len() > MOST_DIGITS {
        return None;
    }
    let mut value: u64 = 0;
    for byte in bytes {
        if !byte.is_ascii_digit() {
            return None;
        }
        value = value * 10 + (*byte - b'0') as u64;
    }
    Some(value)
}

/// The number that is written so, where it lies from `least` to `most`.
pub fn number_within(text: &str, least: u64, most: u64) -> Option<u64>
    ensures value { result ≡ bounded least most text.now }
    ensures within { IfSome result (λ n. (least ≤ n) × (n ≤ most)) }
{
    let value = number(text)?;
    if least <= value && value <= most {
        Some(value)
    } else {
        None
    }
}

/// The budget of the search: from 0 to 1,000,000, and 20,000 where none is given.
pub fn budget_of(text: Option<&str>) -> Option<u64>
    ensures value { result ≡ budget_within (option_map text_in text.entry) }
{
    match text {
        None => Some(20_000),
        Some(text) => number_within(text, 0, 1_000_000),
    }
}

/// The steps of a run: from 0 to 10^12, and 10,000,000 where none is given.
pub fn steps_of(text: Option<&str>) -> Option<u64>
    ensures value { result ≡ steps_within (option_map text_in text.entry) }
{
    match text {
        None => Some(10_000_000),
        Some(text) => number_within(text, 0, 1_000_000_000_000),
    }
}

/// How many workers judge the conditions of a program: from 1 to 64, and 1 where no number is given.
pub fn workers_of(text: Option<&str>) -> Option<u64>
    ensures value { result ≡ workers_within (option_map text_in text.entry) }
    ensures within { IfSome result (λ n. (1 ≤ n) × (n ≤ 64)) }
{
    match text {
        None => Some(1),
        Some(text) => number_within(text, 1, 64),
    }
}
