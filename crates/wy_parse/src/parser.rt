//! Whole programs.
ghost use Rattle.std.specs.Prelude.{◌≡◌, true, ℕ, Ok, Err, IfOk, IfErr};
ghost use Rattle.wy_ast.specs.declared.declarations.Program.{Program};
ghost use Rattle.wy_reading.specs.Reader.{Reads, refused};
ghost use Rattle.wy_parse.specs.BlockReading.{block_at};
ghost use Rattle.wy_parse.specs.DeclTrees as trees;
ghost use Rattle.wy_parse.specs.Derivation.{Answers, Derives, IsHigh, IsRefused, Leaves, Meets, MeetsNone, fault_of, place_of, profile};
ghost use Rattle.wy_parse.specs.Parsed as parsed;
ghost use Rattle.wy_parse.specs.ProgramReading as spec;
ghost use Rattle.wy_parse_grammar.specs.Sorts as sorts;
ghost use Rattle.wy_parse_grammar.specs.Steps.{inside};
ghost use Rattle.wy_parse_grammar.specs.declared.fault.Kind.{Kind};
ghost use Rattle.wy_parse_grammar.specs.declared.fault.Kind.TheVariants as kind;
ghost use Rattle.wy_parse.specs.declared.fault.ParseFault.TheVariants.{Deep, Unexpected};
ghost use Rattle.wy_parse_grammar.specs.declared.sort.Class.TheVariants as class;

use crate::declarations::{LEVELS, declaration};
use crate::fault::ParseFault;
use std::alloc::Global;
use wy_ast::{Decl, Program};
use wy_data::Name;
use wy_items::Items;
use wy_lex::Token;
use wy_parse_grammar::cursor::{Read, mark, name, next_in, next_is};
use wy_parse_grammar::fault::Kind;
use wy_parse_grammar::measured::{Measured, pushed};
use wy_parse_grammar::sort::{Class, END, IMPORT, LINE_END};
use wy_reading::Stop;

/// How many declarations a program may have.
const MOST: usize = 4096;

/// The program that the tokens spell. They are those of some bytes, so `End` stands as the last and
/// nowhere else. The fault that stands first is given, and of several at one place the first of
/// `ParseFault`. Linear in the number of tokens: no token is read twice. Recursion goes as deep as
/// `Deep` lets nesting go, and what `Deep` doesn't count is read in a loop.
pub fn parse(alloc: Global, tokens: &[Token]) -> Result<Program, ParseFault>
    ensures spells { IfOk result (λ p. Derives tokens.now p) }
    ensures reads { (p : Program) → Derives tokens.now p → Answers (Ok p) result }
    ensures fault { IfErr result (IsRefused tokens.now) }
    ensures exact { (x : Kind) (at : ℕ) → Meets tokens.now x at → Answers (Err (fault_of x at)) result }
    ensures high { (at : ℕ) → IsHigh tokens.now at → Answers (Err (Deep at)) result }
    ensures leaves { (at : ℕ) → Leaves tokens.now at → MeetsNone tokens.now → Answers (Err (Unexpected at)) result }
{
    read(alloc, tokens)
}

// What the reader answers.
fn read(alloc: Global, tokens: &[Token]) -> Result<Program, ParseFault>
    ensures value { Answers (parsed.parsed tokens.now) result }
{
    match text(alloc, tokens) {
        Ok((tree, _)) => low(tree),
        Err(stop) => Err(refusal(tokens, stop)),
    }
}

// A program that is low enough.
fn low(tree: Measured<Program>) -> Result<Program, ParseFault>
    ensures { result ≡ parsed.low tree }
{
    match tree {
        Measured::Low(program, _) => Ok(program),
        Measured::High(at) => Err(ParseFault::Deep(at)),
    }
}

// The fault of a stop, at the place of the token where it stands.
fn refusal(tokens: &[Token], stop: Stop<Kind>) -> ParseFault
    ensures { result ≡ parsed.fault_at tokens.now stop }
{
    match stop {
        Stop::Unexpected(left) => ParseFault::Unexpected(place(tokens, left)),
        Stop::Fault(Kind::Mixed, left) => ParseFault::Mixed(place(tokens, left)),
        Stop::Fault(Kind::Deep, left) => ParseFault::Deep(place(tokens, left)),
        Stop::Fault(Kind::TooMany, left) => ParseFault::TooMany(place(tokens, left)),
        Stop::NoMemory => ParseFault::NoMemory,
    }
}

// The place of the token behind which, itself included, so many are left.
fn place(tokens: &[Token], left: usize) -> u32
    ensures { result ≡ place_of tokens.now left }
{
    match &tokens[tokens.len().saturating_sub(left)..] {
        [] => 0,
        [first, ..] => first.at,
    }
}

// A program, and nothing behind it.
#[tactic(auto, unfolding(crate::specs::ProgramReading::text))]
fn text(alloc: Global, tokens: &[Token]) -> Read<'_, Measured<Program>>
    ensures { Reads (spec.text profile tokens.now) result }
{
    let (tree, rest) = program(alloc, tokens)?;
    if !rest.is_empty() {
        return Err(Stop::Unexpected(rest.len()));
    }
    Ok((tree, rest))
}

// program = { import } { declaration }, and the token of the end
#[tactic(auto, unfolding(crate::specs::ProgramReading::program_in))]
fn program(alloc: Global, tokens: &[Token]) -> Read<'_, Measured<Program>>
    ensures { Reads (spec.program_in true LEVELS tokens.now) result }
{
    let (imports, rest) = imports(alloc, tokens)?;
    let ((decls, _), rest) = declarations(alloc, rest)?;
    let (_, rest) = mark(rest, END)?;
    Ok((program_node(imports, decls), rest))
}

fn program_node(imports: Items<(Name, u32)>, decls: Measured<Items<Decl>>) -> Measured<Program>
    ensures { result ≡ trees.program_node imports decls }
{
    match decls {
        Measured::Low(decls, height) => Measured::Low(Program { imports, decls }, height),
        Measured::High(at) => Measured::High(at),
    }
}

#[tactic(auto, using(wy_reading::proofs::Turns::reader_steps), unfolding(crate::specs::ProgramReading::imports))]
fn imports(alloc: Global, tokens: &[Token]) -> Read<'_, Items<(Name, u32)>>
    ensures { Reads (spec.imports tokens.now) result }
{
    let (mut made, mut rest) = (Items::new(alloc), tokens);
    for _turn in 0..tokens.len() {
        if !next_is(rest, IMPORT) {
            return Ok((made, rest));
        }
        let (more, after) = import(alloc, made, rest)?;
        made = more;
        rest = after;
    }
    Ok((made, rest))
}

// 'import' NAME LINE
fn import<'a>(
    alloc: Global,
    mut imports: Items<(Name, u32)>,
    tokens: &'a [Token],
) -> Read<'a, Items<(Name, u32)>>
    ensures { Reads (spec.import imports tokens.now) result }
{
    let (_, rest) = mark(tokens, IMPORT)?;
    let ((at, name), rest) = name(alloc, rest)?;
    let (_, rest) = mark(rest, LINE_END)?;
    imports.push((name, at))?;
    Ok((imports, rest))
}

/// Declarations, and how many they are.
type Counted = (Measured<Items<Decl>>, usize);

#[tactic(auto, using(wy_reading::proofs::Turns::reader_steps), unfolding(crate::specs::ProgramReading::decls))]
fn declarations(alloc: Global, tokens: &[Token]) -> Read<'_, Counted>
    ensures { Reads (spec.decls true LEVELS tokens.now) result }
{
    let none = Measured::Low(Items::new(alloc), 0);
    let (mut made, mut rest) = ((none, 0), tokens);
    for _turn in 0..tokens.len() {
        if !next_in(rest, Class::Declaration) {
            return Ok((made, rest));
        }
        let (more, after) = next_declaration(alloc, made, rest)?;
        made = more;
        rest = after;
    }
    Ok((made, rest))
}

fn next_declaration<'a>(alloc: Global, decls: Counted, tokens: &'a [Token]) -> Read<'a, Counted>
    ensures { Reads (spec.next_decl true (spec.declaration true LEVELS (block_at (inside LEVELS))) decls tokens.now) result }
{
    let (made, count) = decls;
    if count >= MOST {
        return full(tokens);
    }
    let (decl, rest) = declaration(alloc, tokens)?;
    Ok(((pushed(made, decl)?, count + 1), rest))
}

// There is no place for another declaration.
fn full<T>(tokens: &[Token]) -> Read<'_, T>
    ensures { Reads (refused (sorts.has class.Declaration) kind.TooMany tokens.now) result }
{
    if next_in(tokens, Class::Declaration) {
        return Err(Stop::Fault(Kind::TooMany, tokens.len()));
    }
    Err(Stop::Unexpected(tokens.len()))
}
