//! What is written into a cache.
ghost use Rattle.std.specs.Prelude.{◌≡◌, ◌<◌, ◌++◌, ◌∷◌, [], List, ℕ, All, codes, length, map, IfOk, OnOk};
ghost use Rattle.wy_term.specs.Condition.{condition_of};
ghost use Rattle.wy_cert.specs.Steps.{steps_of, certificates_of, NameTheirTerms};
ghost use Rattle.wy_cert.specs.writing.Text.{texts, line_text, certificate_text};
ghost use Rattle.wy_check.specs.Within.{IsWithin};
ghost use Rattle.wy_check.specs.wy_check_laws.reread.Writable.{IsPlace, AreWritable, AreWritableBehind};
ghost use Rattle.wy_cache_text.specs.SoFar.{IsSoFar};
ghost use Rattle.wy_cache_text.specs.Written as written;
ghost use Rattle.wy_cache_text.specs.Written.{IsLongest};
ghost use Rattle.wy_cache.specs.Cached.{row_of, rows_of};
ghost use Rattle.wy_cache.specs.Shown.{AreShown};
ghost use Rattle.wy_cache.specs.Standing.{Stands};

use crate::keys::{Shown, key, nothing_shown};
use wy_cache_text::{Row, Writer, behind_line, lines};
use wy_cert::writing::write_certs;
use wy_cert::{Cert, Certs};
use wy_term::{Cond, Conds, NoMemory, Terms};

/// How long the first line of a file of certificates is.
const HEADER: usize = 9;

// The lines of the steps of the certificate that stands first in a text, and what follows them.
fn first_steps<'a>(text: &'a [u8], number: u32, cert: &Cert) -> (&'a [u8], &'a [u8])
    requires { Stands number (steps_of cert.now) text.now }
    ensures steps { result.0.now ≡ texts line_text (steps_of cert.now) }
    ensures rest { (rest : List ℕ) → text.now ≡ certificate_text (number, steps_of cert.now) ++ rest → result.1.now ≡ rest }
{
    match behind_line(text) {
        None => unreachable!(),
        Some(rest) => match lines(rest, cert.steps.len() as u64) {
            None => unreachable!(),
            Some(both) => both,
        },
    }
}

// Writes the entry for a condition and the steps of a certificate, whose lines these are.
fn put_one(
    writer: &mut Writer,
    shown: &mut Shown,
    terms: &Terms,
    cond: &Cond,
    cert: &Cert,
    steps: &[u8],
) -> Result<(), NoMemory>
    requires cond { IsWithin (length terms.now) cond.now }
    requires shown { AreShown terms.now shown.old }
    requires steps { steps.now ≡ texts line_text (steps_of cert.now) }
    ensures shown { OnOk result (AreShown terms.now shown.new) }
    ensures value { (rows : List written.Row) → IsSoFar rows writer.old → OnOk result (IsSoFar (rows ++ row_of (condition_of terms.now cond.now) (steps_of cert.now) ∷ []) writer.new) }
{
    let key = key(shown, terms, cond)?;
    writer.put(Row {
        hypotheses: cond.hyps.len(),
        key,
        number: cert.steps.len(),
        steps,
    })?;
    Ok(())
}

// Writes the entries for these certificates, whose text this is, until one doesn't fit.
fn put_all(writer: &mut Writer, conds: &Conds, certs: &Certs, text: &[u8]) -> Result<(), NoMemory>
    requires conds { All (IsWithin (length conds.now.terms)) conds.now.list.items }
    requires writable { AreWritableBehind (length conds.now.list.items) [] (certificates_of certs.now) }
    requires text { text.now ≡ texts certificate_text (certificates_of certs.now) ++ codes "end\n" }
    requires writer { IsSoFar [] writer.old }
    ensures value { OnOk result (IsSoFar (rows_of (map (condition_of conds.now.terms) conds.now.list.items) (certificates_of certs.now)) writer.new) }
{
    let mut shown = nothing_shown(conds.terms.allocator());
    let mut rest = text;
    for (number, cert) in &certs.list {
        if writer.is_full() {
            return Ok(());
        }
        let (steps, more) = first_steps(rest, *number, cert);
        let cond = &conds.list[*number as usize - 1];
        put_one(writer, &mut shown, &conds.terms, cond, cert, steps)?;
        rest = more;
    }
    Ok(())
}

/// The bytes of a cache with the conditions that are listed, in this order, and these steps for them, each text once: as many
/// of them as fit. It takes expected time linear in the text of the certificates and in the texts of the conditions.
#[tactic(auto, using(crate::proofs::CachedLemmas::file_steps))]
pub fn cache_text(conds: &Conds, certs: &Certs) -> Result<Vec<u8>, NoMemory>
    requires conds { All (IsWithin (length conds.now.terms)) conds.now.list.items }
    requires names { NameTheirTerms certs.now }
    requires writable { AreWritableBehind (length conds.now.list.items) [] (certificates_of certs.now) }
    ensures value { IfOk result (λ bytes. IsLongest (rows_of (map (condition_of conds.now.terms) conds.now.list.items) (certificates_of certs.now)) bytes.items) }
{
    let alloc = conds.terms.allocator();
    let text = write_certs(alloc, certs)?;
    let mut writer = Writer::new(alloc)?;
    put_all(&mut writer, conds, certs, &text.as_slice()[HEADER..])?;
    Ok(writer.finish()?)
}
