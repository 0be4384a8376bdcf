//! Where bytes go: the trait, and a whole write over it.
ghost use Rattle.std.specs.Prelude.{◌≡◌, ◌<◌, ◌≤◌, ℕ, List, Option, length, take, IfOk, OnOk, OnErr};
ghost use Rattle.wy_port.specs.Count.{Rose};
ghost use Rattle.wy_port.specs.Taken.{TookFront, with_taken};

/// A write failed, and the sink counted it.
#[derive(Clone, Copy, Debug, PartialEq, Eq)]
pub struct Failed;

/// A taker of bytes, which counts its faults.
pub trait Sink {
    /// The bytes taken so far, where they are told.
    ghost taken: { Self → Option (List ℕ) };

    /// How often a write has failed; at 2^64 - 1 it stays.
    ghost faults: { Self → ℕ };

    /// Takes a front of `piece` and answers its length in bytes, at least 1 where `piece` isn't empty.
    /// [`Failed`] comes only where the count of faults rose, and then nothing was taken.
    fn write(&mut self, piece: &[u8]) -> Result<usize, Failed>
        ensures within { IfOk result (λ n. n ≤ length piece.now) }
        ensures progress { 0 < length piece.now → IfOk result (λ n. 0 < n) }
        ensures taken { IfOk result (λ n. taken self.new ≡ with_taken (taken self.old) (take n piece.now)) }
        ensures kept { OnErr result (taken self.new ≡ taken self.old) }
        ensures cause { OnErr result (Rose (faults self.old) (faults self.new)) }
        ensures count { faults self.old ≤ faults self.new };
}

/// Writes all of `bytes`, in as many pieces as the sink wants, none of them empty.
///
/// At [`Failed`] a front of them was taken, and the sink's count rose in this call. It takes no memory of its
/// own, and at most one call of [`Sink::write`] for each byte.
pub fn write_whole<S: Sink>(sink: &mut S, bytes: &[u8]) -> Result<(), Failed>
    ensures taken { OnOk result (S.taken sink.new ≡ with_taken (S.taken sink.old) bytes.now) }
    ensures front { OnErr result (TookFront (S.taken sink.old) (S.taken sink.new) bytes.now) }
    ensures cause { OnErr result (Rose (S.faults sink.old) (S.faults sink.new)) }
    ensures count { S.faults sink.old ≤ S.faults sink.new }
{
    let mut done = 0usize;
    while done < bytes.len() {
        done += sink.write(&bytes[done..])?;
    }
    Ok(())
}
