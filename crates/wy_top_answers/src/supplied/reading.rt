//! The certificates that a command names.
ghost use Rattle.std.specs.Prelude.{◌≡◌, ◌≤◌, ℕ, List, IfOk};
ghost use Rattle.std.specs.String.{string_bytes};
ghost use Rattle.wy_cert.specs.Steps.{NameTheirTerms, certificates_of};
ghost use Rattle.wy_top_answers.specs.Steps.{During, Gives, Setting, both, came};
ghost use Rattle.wy_vc_laws.specs.shown.ReadSorted.{AreSortedCertificates};
ghost use Rattle.wy_top_answers.specs.supplied.Certificates as spec;
ghost use Rattle.wy_top_answers.specs.supplied.Certificates.{IsBadFile};

use crate::report::certificate_fault;
use crate::{Answer, load, no_memory, refusal};
use std::alloc::{AllocError, Global};
use wy_cert::{CertFault, Certs, read_certs};
use wy_data::Bytes;
use wy_port::Files;

/// The most bytes of a certificate file.
const CERTIFICATE_LIMIT: u64 = 16_777_216;

// The line for a fault of the certificate file.
fn fault_line(alloc: Global, name: &str, fault: CertFault) -> Result<String, AllocError>
    ensures value { IfOk result (λ s. string_bytes s ≡ spec.fault_text name.now fault) }
{
    match fault {
        CertFault::BadHeader(line) => certificate_fault(alloc, name, line, "BadHeader"),
        CertFault::BadStep(line) => certificate_fault(alloc, name, line, "BadStep"),
        CertFault::Truncated(line) => certificate_fault(alloc, name, line, "Truncated"),
        CertFault::TwiceCond(line) => certificate_fault(alloc, name, line, "TwiceCond"),
        CertFault::NoSuchCond(line) => certificate_fault(alloc, name, line, "NoSuchCond"),
        CertFault::NoMemory => Ok(String::new(alloc)),
    }
}

// The answer where the file holds no certificates.
fn bad_file(alloc: Global, name: &str, fault: CertFault) -> Answer
    ensures value { IsBadFile name.now fault result }
{
    match fault {
        CertFault::NoMemory => no_memory(alloc),
        _ => refusal(alloc, 6, fault_line(alloc, name, fault)),
    }
}

// The certificates for so many conditions in these bytes.
fn read(alloc: Global, name: &str, bytes: &Bytes, count: u32) -> Result<Certs, Answer>
    ensures gives { (s : Setting) → Gives s (both (spec.certificates_read name.now count bytes.now)) (came certificates_of result) }
    ensures names { IfOk result NameTheirTerms }
    ensures sorted { IfOk result (λ c. AreSortedCertificates (certificates_of c)) }
{
    match read_certs(alloc, bytes.as_slice(), count) {
        Ok(certs) => Ok(certs),
        Err(fault) => Err(bad_file(alloc, name, fault)),
    }
}

/// The certificates for so many conditions in the file with this name, and none where the name is the word `none`; or the
/// answer of why there are none.
pub fn certificates<F: Files>(
    alloc: Global,
    name: &str,
    count: u32,
    files: &mut F,
) -> Result<Certs, Answer>
    ensures gives { During (F.told files.old) (F.load_faults files.old) (F.load_faults files.new) (F.misses files.old) (F.misses files.new) (λ s. Gives s (spec.certificates s name.now count) (came certificates_of result)) }
    ensures names { IfOk result NameTheirTerms }
    ensures sorted { IfOk result (λ c. AreSortedCertificates (certificates_of c)) }
    ensures kept { (other : List ℕ) → F.told files.new other ≡ F.told files.old other }
    ensures load_count { (other : List ℕ) → F.load_faults files.old other ≤ F.load_faults files.new other }
    ensures miss_count { (other : List ℕ) → F.misses files.old other ≤ F.misses files.new other }
    ensures save_count { F.save_faults files.new ≡ F.save_faults files.old }
{
    if name == "none" {
        return Ok(Certs {
            list: Vec::new(alloc),
        });
    }
    match load(alloc, name, CERTIFICATE_LIMIT, files) {
        Ok(bytes) => read(alloc, name, &bytes, count),
        Err(answer) => Err(answer),
    }
}
