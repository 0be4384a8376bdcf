//! The program `wy`: a verifying compiler on the command line.
//!
//! It hands the words behind its own name to `wy_headline`, with the files of the system and the two standard streams, and
//! ends with the status that comes back.
#![tactic(auto)]

#[cfg(test)]
mod test_files;
#[cfg(test)]
mod tests;

use std::env;
use std::io::ErrorKind;
use std::process::ExitCode;
use wy_headline::run_words;
use wy_port::{DiskFiles, StdSink};

/// The status where memory ran out.
const NO_MEMORY: u8 = 9;

/// Memory ran out.
#[derive(Clone, Copy, Debug)]
struct NoMemory;

fn main(rt: HostRuntime) -> ExitCode {
    let Ok(words) = words(&rt) else {
        return ExitCode::from(NO_MEMORY);
    };
    let mut files = DiskFiles::new(&rt);
    let mut out = StdSink::new(rt.stdout());
    let mut err = StdSink::new(rt.stderr());
    let status = run_words(&rt, rt.alloc(), &words, &mut files, &mut out, &mut err);
    ExitCode::from(status)
}

// The words behind the program's own name. Where one isn't text there are none, and so no command.
fn words(rt: &HostRuntime) -> Result<Vec<String>, NoMemory> {
    let mut words = match env::args(rt) {
        Ok(words) => words,
        Err(e) if e.kind() == ErrorKind::OutOfMemory => return Err(NoMemory),
        Err(_) => return Ok(Vec::new(rt.alloc())),
    };
    let _ = words.next();
    match words.collect(rt.alloc()) {
        Ok(words) => Ok(words),
        Err(_) => Err(NoMemory),
    }
}
