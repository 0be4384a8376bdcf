//! What a call calls.
ghost use Rattle.std.specs.Prelude.{◌≡◌, []};
ghost use Rattle.wy_code_spec.specs.tables.Tables as spec;

/// What the number of a routine calls.
#[derive(Clone, Copy, Debug, PartialEq, Eq)]
pub enum Target {
    /// A function or method, and whether it gives a result.
    Declared(bool),
    /// The method that writes an array of numbers as bytes.
    Prints,
    /// The method that writes a number in decimal.
    PrintsInt,
    /// No routine has the number.
    Nothing,
}

/// What the number calls, where for each function and method it is said whether it gives a result.
#[tactic(auto, using(crate::proofs::tables_lemmas::TargetLemmas::declared_target, crate::proofs::tables_lemmas::TargetLemmas::other_target))]
pub fn called(results: &[bool], routine: u32) -> Target
    ensures value { result ≡ spec.target results.now routine }
{
    let number = routine as usize;
    if number < results.len() {
        return Target::Declared(results[number]);
    }
    other(number - results.len())
}

fn other(number: usize) -> Target
    ensures value { result ≡ spec.target [] number }
{
    match number {
        0 => Target::Prints,
        1 => Target::PrintsInt,
        _ => Target::Nothing,
    }
}
