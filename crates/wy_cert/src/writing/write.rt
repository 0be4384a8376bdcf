//! Certificates, written step by step.
ghost use Rattle.std.specs.Prelude.{◌≡◌, ◌<◌, ◌++◌, ℕ, All, codes, length, map, OnOk, IfOk};
ghost use Rattle.std.specs.Fmt.{decimal};
ghost use Rattle.wy_term_text.specs.wy_term.Term.{Term};
ghost use Rattle.wy_term_text.specs.wy_term.Nodes.{tree_at};
ghost use Rattle.wy_term_text.specs.show.Text.{text_of};
ghost use Rattle.wy_cert.specs.Steps.{written, IsBelow, steps_of, certificates_of, NamesItsTerms, NameTheirTerms};
ghost use Rattle.wy_cert.specs.writing.Text.{texts, pair_text, more_text, arguments_text, other_text, step_text, line_text, certificate_text, is_product, some_pass, has_product, header, file_text};

use crate::{Cert, Certs, Step};
use std::alloc::Global;
use wy_term_text::show::show_formula;
use wy_term_text::{NoMemory, Terms};

fn put(out: &mut Vec<u8>, text: &str) -> Result<(), NoMemory>
    ensures { OnOk result (out.new.items ≡ out.old.items ++ text.now) }
{
    out.extend_from_slice(text.as_bytes())?;
    Ok(())
}

fn put_number(alloc: Global, out: &mut Vec<u8>, n: u128) -> Result<(), NoMemory>
    ensures { OnOk result (out.new.items ≡ out.old.items ++ decimal n) }
{
    let text = format!(in alloc; "{n}")?;
    put(out, text.as_str())
}

fn put_place(alloc: Global, out: &mut Vec<u8>, n: u32) -> Result<(), NoMemory>
    ensures { OnOk result (out.new.items ≡ out.old.items ++ decimal n) }
{
    let text = format!(in alloc; "{n}")?;
    put(out, text.as_str())
}

fn put_term(out: &mut Vec<u8>, terms: &Terms, t: u32) -> Result<(), NoMemory>
    requires { t < length terms.now }
    ensures { OnOk result (out.new.items ≡ out.old.items ++ text_of (tree_at terms.now t)) }
{
    let text = show_formula(terms, t)?;
    out.extend_from_slice(text.as_slice())?;
    Ok(())
}

#[tactic(auto, using(crate::proofs::writing_lemmas::WriteLemmas::write_steps))]
fn put_more(out: &mut Vec<u8>, terms: &Terms, t: u32) -> Result<(), NoMemory>
    requires { t < length terms.now }
    ensures { OnOk result (out.new.items ≡ out.old.items ++ more_text (tree_at terms.now t)) }
{
    put(out, " ; ")?;
    put_term(out, terms, t)
}

#[tactic(auto, using(crate::proofs::writing_lemmas::WriteLemmas::write_steps))]
fn put_pair(alloc: Global, out: &mut Vec<u8>, pair: (u128, u32)) -> Result<(), NoMemory>
    ensures { OnOk result (out.new.items ≡ out.old.items ++ pair_text pair) }
{
    put(out, " ")?;
    put_number(alloc, out, pair.0)?;
    put(out, " ")?;
    put_place(alloc, out, pair.1)
}

#[tactic(auto, using(crate::proofs::writing_lemmas::WriteLemmas::texts_steps))]
fn put_pairs(alloc: Global, out: &mut Vec<u8>, pairs: &[(u128, u32)]) -> Result<(), NoMemory>
    ensures { OnOk result (out.new.items ≡ out.old.items ++ texts pair_text pairs.now) }
{
    for pair in pairs {
        put_pair(alloc, out, *pair)?;
    }
    Ok(())
}

#[tactic(auto, using(crate::proofs::writing_lemmas::WriteLemmas::argument_steps))]
fn put_terms(out: &mut Vec<u8>, terms: &Terms, all: &[u32]) -> Result<(), NoMemory>
    requires { All (λ k. k < length terms.now) all.now }
    ensures { OnOk result (out.new.items ≡ out.old.items ++ arguments_text (map (tree_at terms.now) all.now)) }
{
    match all {
        [] => Ok(()),
        [first, others @ ..] => {
            put_term(out, terms, *first)?;
            for t in others {
                put_more(out, terms, *t)?;
            }
            Ok(())
        }
    }
}

#[tactic(auto, using(crate::proofs::writing_lemmas::WriteLemmas::write_steps))]
fn put_other(alloc: Global, out: &mut Vec<u8>, other: Option<u32>) -> Result<(), NoMemory>
    ensures { OnOk result (out.new.items ≡ out.old.items ++ other_text other) }
{
    match other {
        None => Ok(()),
        Some(j) => {
            put(out, " ")?;
            put_place(alloc, out, j)
        }
    }
}

// The line of a step, without its end.
#[tactic(auto, using(crate::proofs::writing_lemmas::WriteLemmas::write_steps))]
fn put_step(alloc: Global, out: &mut Vec<u8>, terms: &Terms, step: &Step) -> Result<(), NoMemory>
    requires { IsBelow (length terms.now) step.now }
    ensures { OnOk result (out.new.items ≡ out.old.items ++ step_text (written (tree_at terms.now) step.now)) }
{
    match step {
        Step::Split(f) => {
            put(out, "split ")?;
            put_term(out, terms, *f)
        }
        Step::Shut => put(out, "shut"),
        Step::Chain(all) => {
            put(out, "chain ")?;
            put_terms(out, terms, all)
        }
        Step::Clash(i, other) => {
            put(out, "clash ")?;
            put_place(alloc, out, *i)?;
            put_other(alloc, out, *other)
        }
        Step::Sum(pairs) => {
            put(out, "sum")?;
            put_pairs(alloc, out, pairs)
        }
        Step::Cut(d, pairs) => {
            put(out, "cut ")?;
            put_number(alloc, out, *d)?;
            put_pairs(alloc, out, pairs)
        }
        Step::Inst(i, t) => {
            put(out, "inst ")?;
            put_place(alloc, out, *i)?;
            put(out, " ")?;
            put_term(out, terms, *t)
        }
        Step::Wit(i) => {
            put(out, "wit ")?;
            put_place(alloc, out, *i)
        }
        Step::Fact(n, all) => {
            put(out, "fact ")?;
            put_place(alloc, out, *n)?;
            put(out, " ")?;
            put_terms(out, terms, all)
        }
        Step::Prod(i, j, p) => {
            put(out, "prod ")?;
            put_place(alloc, out, *i)?;
            put(out, " ")?;
            put_place(alloc, out, *j)?;
            put(out, " ")?;
            put_term(out, terms, *p)
        }
    }
}

#[tactic(auto, using(crate::proofs::writing_lemmas::WriteLemmas::write_steps))]
fn put_line(alloc: Global, out: &mut Vec<u8>, terms: &Terms, step: &Step) -> Result<(), NoMemory>
    requires { IsBelow (length terms.now) step.now }
    ensures { OnOk result (out.new.items ≡ out.old.items ++ line_text (written (tree_at terms.now) step.now)) }
{
    put_step(alloc, out, terms, step)?;
    put(out, "\n")
}

#[tactic(auto, using(crate::proofs::writing_lemmas::WriteLemmas::texts_steps))]
fn put_steps(
    alloc: Global,
    out: &mut Vec<u8>,
    terms: &Terms,
    steps: &[Step],
) -> Result<(), NoMemory>
    requires { All (IsBelow (length terms.now)) steps.now }
    ensures { OnOk result (out.new.items ≡ out.old.items ++ texts (λ s. line_text (written (tree_at terms.now) s)) steps.now) }
{
    for step in steps {
        put_line(alloc, out, terms, step)?;
    }
    Ok(())
}

#[tactic(auto, using(crate::proofs::writing_lemmas::WriteLemmas::cert_steps))]
fn put_cert(alloc: Global, out: &mut Vec<u8>, number: u32, cert: &Cert) -> Result<(), NoMemory>
    requires { NamesItsTerms cert.now }
    ensures { OnOk result (out.new.items ≡ out.old.items ++ certificate_text (number, steps_of cert.now)) }
{
    put(out, "cond ")?;
    put_place(alloc, out, number)?;
    put(out, "\n")?;
    put_steps(alloc, out, &cert.terms, &cert.steps)
}

#[tactic(auto, using(crate::proofs::writing_lemmas::WriteLemmas::texts_steps))]
fn put_certs(alloc: Global, out: &mut Vec<u8>, list: &[(u32, Cert)]) -> Result<(), NoMemory>
    requires { All (λ e. NamesItsTerms e.1) list.now }
    ensures { OnOk result (out.new.items ≡ out.old.items ++ texts (λ e. certificate_text (e.0, steps_of e.1)) list.now) }
{
    for entry in list {
        put_cert(alloc, out, entry.0, &entry.1)?;
    }
    Ok(())
}

fn is_product(step: &Step) -> bool
    ensures { (at : ℕ → Term) → result ≡ is_product (written at step.now) }
{
    match step {
        Step::Prod(_, _, _) => true,
        _ => false,
    }
}

#[tactic(auto, using(crate::proofs::writing_lemmas::ProductLemmas::some_steps))]
fn have_product(steps: &[Step]) -> bool
    ensures { (at : ℕ → Term) → result ≡ some_pass (λ s. is_product (written at s)) steps.now }
{
    for step in steps {
        if is_product(step) {
            return true;
        }
    }
    false
}

fn has_product(cert: &Cert) -> bool
    ensures { result ≡ some_pass is_product (steps_of cert.now) }
{
    have_product(&cert.steps)
}

#[tactic(auto, using(crate::proofs::writing_lemmas::ProductLemmas::some_steps))]
fn some_have_product(list: &[(u32, Cert)]) -> bool
    ensures { result ≡ some_pass (λ e. some_pass is_product (steps_of e.1)) list.now }
{
    for entry in list {
        if has_product(&entry.1) {
            return true;
        }
    }
    false
}

fn header(certs: &Certs) -> &'static str
    ensures { result.now ≡ header (some_pass has_product (certificates_of certs.now)) }
{
    if some_have_product(&certs.list) {
        return "wycert 2\n";
    }
    "wycert 1\n"
}

/// The text of certificates, under the second header only where a step is a product, in time linear in its length.
pub fn write_certs(alloc: Global, certs: &Certs) -> Result<Vec<u8>, NoMemory>
    requires { NameTheirTerms certs.now }
    ensures { IfOk result (λ bytes. bytes.items ≡ file_text (certificates_of certs.now)) }
{
    let mut out = Vec::new(alloc);
    put(&mut out, header(certs))?;
    put_certs(alloc, &mut out, &certs.list)?;
    put(&mut out, "end\n")?;
    Ok(out)
}
