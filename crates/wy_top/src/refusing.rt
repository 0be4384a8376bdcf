//! The lines for conditions without a certificate.
ghost use Rattle.std.specs.Prelude.{◌≡◌, ◌<◌, ◌^◌, ◌++◌, [], ℕ, List, length, map, IfOk, OnOk};
ghost use Rattle.wy_top_probe.specs.wy_link_load.wy_parse_front.Places.{place_of};
ghost use Rattle.wy_prove.specs.wy_check_nodes.Seen.{seen_literal, AreOver};
ghost use Rattle.wy_top_probe.specs.wy_link_load.wy_parse_front.lines.Starts.{AreLines};
ghost use Rattle.wy_top.specs.Refusals as spec;
ghost use Rattle.wy_top.specs.Sign.{sign_text};
ghost use Rattle.wy_top_probe.specs.wy_top_answers.report.Lines as report;
ghost use Rattle.wy_top_probe.specs.wy_top_answers.report.Listing.{formula_line};
ghost use Rattle.wy_prove.specs.Seen.{seen_why};
ghost use Rattle.wy_term.specs.Condition.{word_of};
ghost use Rattle.wy_term.specs.Nodes.{Plain, tree_at};
ghost use Rattle.wy_top_probe.specs.wy_top_answers.wy_check_spec.valid.Literals.{formula_of};
ghost use Rattle.wy_vc.specs.Told.{seen_cond};
ghost use Rattle.wy_batch.specs.Seen.{known, NamesTerms, NameTerms, seen_end};

use crate::counting::{spent, still_open};
use std::alloc::Global;
use wy_batch::{End, Verdict};
use wy_prove::{OpenLeaf, Why};
use wy_term::{Cond, NoMemory, Terms};
use wy_term_text::show::show_formula;
use wy_top_probe::Lines;
use wy_top_probe::wy_top_answers::report::{open_condition, refused, spent_condition};

/// For each condition that is open, or whose budget of leaves is spent, its lines: where it stands in the source, its number from 1, its
/// kind, and why it is open with the literals of its leaf, or the budget. The last line has how many conditions there are, how many are
/// open, and how many spent. In time linear in the source, the conditions and the text.
pub fn refusal_lines(
    alloc: Global,
    file: &str,
    source: &[u8],
    budget: u64,
    conds: &[Cond],
    verdicts: &[Verdict],
) -> Result<Vec<u8>, NoMemory>
    requires each { length verdicts.now ≡ length conds.now }
    requires few { length conds.now < 2 ^ 32 }
    requires named { NameTerms verdicts.now }
    ensures value { (nodes : List Plain) → IfOk result (λ text. text.items ≡ spec.refusal_lines file.now source.now budget (map (seen_cond nodes) conds.now) (map known verdicts.now)) }
{
    let mut text = all_lines(alloc, file, source, budget, conds, verdicts)?;
    let sum = refused(
        alloc,
        verdicts.len() as u32,
        still_open(verdicts),
        spent(verdicts),
    )?;
    text.extend_from_slice(sum.as_bytes())?;
    Ok(text)
}

// The lines of all conditions.
#[tactic(auto, using(crate::proofs::LineLemmas::lines_steps))]
fn all_lines(
    alloc: Global,
    file: &str,
    source: &[u8],
    budget: u64,
    conds: &[Cond],
    verdicts: &[Verdict],
) -> Result<Vec<u8>, NoMemory>
    requires each { length verdicts.now ≡ length conds.now }
    requires few { length conds.now < 2 ^ 32 }
    requires named { NameTerms verdicts.now }
    ensures value { IfOk result (λ text. text.items ≡ spec.lines_from file.now source.now budget 1 (map (seen_cond []) conds.now) (map known verdicts.now)) }
{
    let lines = Lines::of(alloc, source)?;
    let mut text = Vec::new(alloc);
    for i in 0..conds.len() {
        let number = i as u32 + 1;
        put_end(
            alloc,
            &mut text,
            file,
            &lines,
            budget,
            number,
            &conds[i],
            &verdicts[i].end,
        )?;
    }
    Ok(text)
}

// Appends the lines of the condition with this number.
fn put_end(
    alloc: Global,
    text: &mut Vec<u8>,
    file: &str,
    lines: &Lines,
    budget: u64,
    number: u32,
    cond: &Cond,
    end: &End,
) -> Result<(), NoMemory>
    requires named { NamesTerms end.now }
    ensures value { (bytes : List ℕ) → AreLines bytes lines.now → OnOk result (text.new.items ≡ text.old.items ++ spec.end_lines file.now bytes budget number (seen_cond [] cond.now) (seen_end end.now)) }
{
    match end {
        End::Supplied | End::Found { .. } => Ok(()),
        End::Open(leaf) => put_open(alloc, text, file, lines, number, cond, leaf),
        End::Spent => put_spent(alloc, text, file, lines, budget, number, cond),
    }
}

// Appends the line of a condition whose budget is spent.
fn put_spent(
    alloc: Global,
    text: &mut Vec<u8>,
    file: &str,
    lines: &Lines,
    budget: u64,
    number: u32,
    cond: &Cond,
) -> Result<(), NoMemory>
    ensures value { (bytes : List ℕ) → AreLines bytes lines.now → OnOk result (text.new.items ≡ text.old.items ++ report.spent_condition file.now (place_of bytes cond.now.at).0 (place_of bytes cond.now.at).1 number (word_of cond.now.kind) budget) }
{
    let place = lines.place(cond.at);
    let kind = cond.kind.word();
    let line = spent_condition(alloc, file, place.line, place.column, number, kind, budget)?;
    text.extend_from_slice(line.as_bytes())?;
    Ok(())
}

// Appends the lines of a condition that is open.
fn put_open(
    alloc: Global,
    text: &mut Vec<u8>,
    file: &str,
    lines: &Lines,
    number: u32,
    cond: &Cond,
    leaf: &OpenLeaf,
) -> Result<(), NoMemory>
    requires named { AreOver (length leaf.now.terms) leaf.now.literals.items }
    ensures value { (bytes : List ℕ) → AreLines bytes lines.now → OnOk result (text.new.items ≡ text.old.items ++ report.open_condition file.now (place_of bytes cond.now.at).0 (place_of bytes cond.now.at).1 number (word_of cond.now.kind) (spec.why_word (seen_why leaf.now.why)) (spec.literal_lines (map (seen_literal (tree_at leaf.now.terms)) leaf.now.literals.items))) }
{
    let place = lines.place(cond.at);
    let kind = cond.kind.word();
    let why = why_word(leaf.why);
    let line = open_condition(alloc, file, place.line, place.column, number, kind, why, "")?;
    text.extend_from_slice(line.as_bytes())?;
    put_literals(text, &leaf.terms, &leaf.literals)
}

// Why a leaf is open, as a word.
fn why_word(why: Why) -> &'static str
    ensures value { result.now ≡ spec.why_word (seen_why why) }
{
    match why {
        Why::Still => "still",
        Why::Crowded => "crowded",
        Why::Wide => "wide",
    }
}

// Appends literals, each on a line of its own.
#[tactic(auto, using(crate::proofs::LiteralLemmas::literals_steps))]
fn put_literals(text: &mut Vec<u8>, terms: &Terms, literals: &[(u32, bool)]) -> Result<(), NoMemory>
    requires named { AreOver (length terms.now) literals.now }
    ensures value { OnOk result (text.new.items ≡ text.old.items ++ spec.literal_lines (map (seen_literal (tree_at terms.now)) literals.now)) }
{
    for i in 0..literals.len() {
        let (atom, holds) = literals[i];
        put_literal(text, terms, atom, holds)?;
    }
    Ok(())
}

// Appends a literal on a line behind two spaces.
#[tactic(auto, using(crate::proofs::LiteralLemmas::literal_line))]
fn put_literal(text: &mut Vec<u8>, terms: &Terms, atom: u32, holds: bool) -> Result<(), NoMemory>
    requires { atom < length terms.now }
    ensures { OnOk result (text.new.items ≡ text.old.items ++ formula_line (formula_of (seen_literal (tree_at terms.now) (atom, holds)))) }
{
    text.extend_from_slice(sign(holds).as_bytes())?;
    let formula = show_formula(terms, atom)?;
    text.extend_from_slice(formula.as_slice())?;
    text.push(b'\n')?;
    Ok(())
}

// What stands before the atom of a literal.
fn sign(holds: bool) -> &'static str
    ensures { result.now ≡ sign_text holds }
{
    if holds { "  " } else { "  not " }
}
