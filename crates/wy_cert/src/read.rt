//! Certificate files.
ghost use Rattle.std.specs.Prelude.{◌≡◌, ◌<◌, ◌≤◌, ◌+◌, ◌^◌, ◌==◌, [], ℕ, true, if◌then◌else◌, IfOk, OnOk, MatchOption, length};
ghost use Rattle.std.specs.Ordering.{nat_cmp};
ghost use Rattle.std.specs.BTreeSet.{contains};
ghost use Rattle.wy_cert.specs.Only.{IsTheOne, HasNone, Answers};
ghost use Rattle.wy_cert.specs.Steps.{certificates_of, NameTheirTerms};
ghost use Rattle.wy_cert.specs.File.{IsCondition, ReadsCerts, ReadsFile};

use crate::fault::CertFault;
use crate::numbers::last_place;
use crate::step::Certs;
use crate::tree::{first_line, tree};
use std::alloc::Global;
use std::collections::BTreeSet;
use wy_data::same_bytes;
use wy_data::scan::behind;
use wy_term_text::NoMemory;

/// The certificates of a file for so many conditions, in time linear in the file beside what making terms takes and
/// looking up numbers of conditions.
pub fn read_certs(alloc: Global, bytes: &[u8], conds: u32) -> Result<Certs, CertFault>
    ensures value { Answers (ReadsFile conds bytes.now) certificates_of result }
    ensures names { IfOk result NameTheirTerms }
{
    if let Some(rest) = behind(bytes, b"wycert 1\n") {
        return certificates(alloc, rest, conds, false);
    }
    match behind(bytes, b"wycert 2\n") {
        None => Err(CertFault::BadHeader(1)),
        Some(rest) => certificates(alloc, rest, conds, true),
    }
}

// The condition whose certificate the line opens.
#[tactic(auto, using(crate::proofs::FileLemmas::condition_steps))]
fn condition(alloc: Global, line: &[u8]) -> Result<Option<u32>, NoMemory>
    ensures value { IfOk result (λ o. MatchOption o (HasNone (IsCondition line.now)) (λ c. IsTheOne (IsCondition line.now) c)) }
{
    let Some(number) = behind(line, b"cond ") else {
        return Ok(None);
    };
    last_place(alloc, number)
}

// The lines behind the header.
fn certificates(alloc: Global, text: &[u8], conds: u32, products: bool) -> Result<Certs, CertFault>
    requires { length text.now < 2 ^ 63 }
    ensures value { Answers (ReadsCerts products conds [] 2 text.now) certificates_of result }
    ensures names { IfOk result NameTheirTerms }
{
    let mut list = Vec::new(alloc);
    let mut seen = BTreeSet::new(alloc);
    let mut rest = text;
    let mut line = 2u64;
    for _turn in 0..u64::MAX {
        let Some((first, more)) = first_line(rest) else {
            return Err(CertFault::Truncated(line));
        };
        if same_bytes(first, b"end") {
            if more.is_empty() {
                return Ok(Certs { list });
            }
            return Err(CertFault::BadStep(line + 1));
        }
        let Some(number) = condition(alloc, first)? else {
            return Err(CertFault::BadStep(line));
        };
        if seen.contains(&number) {
            return Err(CertFault::TwiceCond(line));
        }
        if number > conds {
            return Err(CertFault::NoSuchCond(line));
        }
        match tree(alloc, more, line + 1, products) {
            Err(fault) => return Err(fault),
            Ok((cert, behind, after)) => {
                seen.insert(number)?;
                list.push((number, cert))?;
                rest = behind;
                line = after;
            }
        }
    }
    Err(CertFault::NoMemory)
}
