//! The lines for certificates that aren't valid.
ghost use Rattle.std.specs.Prelude.{◌≡◌, ◌<◌, ◌^◌, ◌++◌, length, map, IfOk, OnOk};
ghost use Rattle.wy_top.specs.Refusals as spec;
ghost use Rattle.wy_batch.specs.Seen.{known};

use std::alloc::Global;
use wy_batch::Verdict;
use wy_term::NoMemory;
use wy_top_probe::wy_top_answers::report::invalid_step;

/// A line for each condition whose certificate in this file isn't valid, in order: the number of its first bad step. In time linear in
/// the conditions and the text.
#[tactic(auto, using(crate::proofs::InvalidLemmas::invalid_steps))]
pub fn invalid_lines(alloc: Global, file: &str, verdicts: &[Verdict]) -> Result<Vec<u8>, NoMemory>
    requires few { length verdicts.now < 2 ^ 32 }
    ensures value { IfOk result (λ text. text.items ≡ spec.invalid_lines file.now (map known verdicts.now)) }
{
    let mut text = Vec::new(alloc);
    for i in 0..verdicts.len() {
        let number = i as u32 + 1;
        put_line(alloc, &mut text, file, number, verdicts[i].bad_step)?;
    }
    Ok(text)
}

// The line for the condition with this number, if there is a bad step.
fn put_line(
    alloc: Global,
    text: &mut Vec<u8>,
    file: &str,
    number: u32,
    bad_step: Option<u64>,
) -> Result<(), NoMemory>
    ensures { OnOk result (text.new.items ≡ text.old.items ++ spec.invalid_line file.now number bad_step) }
{
    match bad_step {
        None => Ok(()),
        Some(step) => {
            let line = invalid_step(alloc, file, number, step)?;
            text.extend_from_slice(line.as_bytes())?;
            Ok(())
        }
    }
}
