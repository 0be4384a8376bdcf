//! Declarations.
ghost use Rattle.std.specs.Prelude.{◌≡◌, true};
ghost use Rattle.wy_reading.specs.Reader.{Reads};
ghost use Rattle.wy_parse.specs.BlockReading.{block_at};
ghost use Rattle.wy_parse.specs.DeclTrees as trees;
ghost use Rattle.wy_parse.specs.ProgramReading as spec;
ghost use Rattle.wy_parse_grammar.specs.Steps.{inside};

use crate::blocks::block;
use crate::nested::Stmts;
use crate::parts::{TypePart, type_part, type_part_rest};
use crate::simple::{where_clause, wheres};
use std::alloc::Global;
use wy_ast::{Alias, Decl, Expr, Function, Method, Param, Property, Ty};
use wy_data::Name;
use wy_items::{Boxed, Items};
use wy_lex::Token;
use wy_parse_grammar::cursor::{Read, mark, name, next_in, next_is};
use wy_parse_grammar::expressions::expr;
use wy_parse_grammar::measured::{Measured, both, pushed, some};
use wy_parse_grammar::sort::{
    ARROW, CLOSE_PAREN, COLON, COMMA, Class, ENSURES, FUNCTION, IS, LINE_END, METHOD, NAME,
    OPEN_PAREN, PROPERTY, REQUIRES, TYPE,
};

/// How many levels there are where declarations stand, this one included: what stands in 100 pairs,
/// operators and blocks together stands on the last.
pub const LEVELS: usize = 101;

/// The parameters, as far as they were read.
type ParamList = Measured<Items<Param>>;

/// Clauses that stand in a declaration.
type Clauses = Measured<Items<Expr>>;

/// The result's type, and its name where it has one.
type Given = Measured<(Boxed<Ty>, Option<Name>)>;

/// The result of a method, which may have none.
type MethodGiven = Measured<Option<(Boxed<Ty>, Option<Name>)>>;

/// A declaration.
#[tactic(auto, unfolding(crate::specs::ProgramReading::declaration))]
pub fn declaration(alloc: Global, tokens: &[Token]) -> Read<'_, Measured<Decl>>
    ensures { Reads (spec.declaration true LEVELS (block_at (inside LEVELS)) tokens.now) result }
{
    if next_is(tokens, TYPE) {
        return alias(alloc, tokens);
    }
    if next_is(tokens, FUNCTION) {
        return function(alloc, tokens);
    }
    if next_is(tokens, METHOD) {
        return method(alloc, tokens);
    }
    property(alloc, tokens)
}

// 'type' NAME 'is' ( type | '(' type NAME ')' where { where } ) LINE
#[tactic(auto, unfolding(crate::specs::ProgramReading::alias_decl))]
fn alias(alloc: Global, tokens: &[Token]) -> Read<'_, Measured<Decl>>
    ensures { Reads (spec.alias_decl true LEVELS tokens.now) result }
{
    let (at, rest) = mark(tokens, TYPE)?;
    let ((_, name), rest) = name(alloc, rest)?;
    let (_, rest) = mark(rest, IS)?;
    alias_rest(alloc, at, name, rest)
}

// What stands behind 'is'.
#[tactic(auto, unfolding(crate::specs::ProgramReading::alias_rest))]
fn alias_rest<'a>(
    alloc: Global,
    at: u32,
    name: Name,
    tokens: &'a [Token],
) -> Read<'a, Measured<Decl>>
    ensures { Reads (spec.alias_rest true LEVELS at name tokens.now) result }
{
    let ((ty, variable), rest) = named_type(alloc, tokens)?;
    let (clauses, rest) = alias_clauses(alloc, &variable, rest)?;
    let (_, rest) = mark(rest, LINE_END)?;
    Ok((alias_node(at, name, ty, variable, clauses), rest))
}

// What stands behind the type: clauses, at least one, where it has a variable, and else none.
#[tactic(auto, unfolding(crate::specs::ProgramReading::alias_clauses))]
fn alias_clauses<'a>(
    alloc: Global,
    variable: &Option<Name>,
    tokens: &'a [Token],
) -> Read<'a, Clauses>
    ensures { Reads (spec.alias_clauses true LEVELS variable.now tokens.now) result }
{
    let none = Measured::Low(Items::new(alloc), 0);
    match variable {
        None => Ok((none, tokens)),
        Some(_) => {
            let (first, rest) = where_clause(alloc, none, tokens, LEVELS)?;
            wheres(alloc, first, rest, LEVELS)
        }
    }
}

// '(' type NAME ')' | type
#[tactic(auto, unfolding(crate::specs::ProgramReading::named_type))]
fn named_type(alloc: Global, tokens: &[Token]) -> Read<'_, (TypePart, Option<Name>)>
    ensures { Reads (spec.named_type LEVELS tokens.now) result }
{
    if !next_is(tokens, OPEN_PAREN) {
        let (ty, rest) = type_part(alloc, tokens, LEVELS)?;
        return Ok(((ty, None), rest));
    }
    let (_, rest) = mark(tokens, OPEN_PAREN)?;
    inner_type(alloc, rest)
}

// What stands behind the bracket: a type and a name, or a type and the rest of one that it begins.
#[tactic(auto, unfolding(crate::specs::ProgramReading::inner_type))]
fn inner_type(alloc: Global, tokens: &[Token]) -> Read<'_, (TypePart, Option<Name>)>
    ensures { Reads (spec.inner_type LEVELS tokens.now) result }
{
    let (ty, rest) = type_part(alloc, tokens, LEVELS - 1)?;
    if next_is(rest, NAME) {
        let ((_, name), rest) = name(alloc, rest)?;
        let (_, rest) = mark(rest, CLOSE_PAREN)?;
        return Ok(((ty, Some(name)), rest));
    }
    let (_, rest) = mark(rest, CLOSE_PAREN)?;
    let (ty, rest) = type_part_rest(alloc, ty, rest, LEVELS)?;
    Ok(((ty, None), rest))
}

// 'function' NAME params '->' result { spec } ':' block
#[tactic(auto, unfolding(crate::specs::ProgramReading::function_decl))]
fn function(alloc: Global, tokens: &[Token]) -> Read<'_, Measured<Decl>>
    ensures { Reads (spec.function_decl true LEVELS (block_at (inside LEVELS)) tokens.now) result }
{
    let (at, rest) = mark(tokens, FUNCTION)?;
    let ((_, name), rest) = name(alloc, rest)?;
    let (params, rest) = params(alloc, rest)?;
    function_rest(alloc, at, name, params, rest)
}

// '->' result { spec } ':' block, behind the parameters
#[tactic(auto, unfolding(crate::specs::ProgramReading::function_rest))]
fn function_rest<'a>(
    alloc: Global,
    at: u32,
    name: Name,
    params: ParamList,
    tokens: &'a [Token],
) -> Read<'a, Measured<Decl>>
    ensures { Reads (spec.function_rest true LEVELS (block_at (inside LEVELS)) at name params tokens.now) result }
{
    let (_, rest) = mark(tokens, ARROW)?;
    let ((ty, result_name), rest) = named_type(alloc, rest)?;
    function_body(alloc, at, name, params, outcome(ty, result_name), rest)
}

// { spec } ':' block, behind the result
#[tactic(auto, unfolding(crate::specs::ProgramReading::function_body))]
fn function_body<'a>(
    alloc: Global,
    at: u32,
    name: Name,
    params: ParamList,
    given: Given,
    tokens: &'a [Token],
) -> Read<'a, Measured<Decl>>
    ensures { Reads (spec.function_body true LEVELS (block_at (inside LEVELS)) at name params given tokens.now) result }
{
    let (contract, rest) = contract(alloc, tokens)?;
    let (_, rest) = mark(rest, COLON)?;
    let (body, rest) = block(alloc, rest, LEVELS - 1)?;
    Ok((function_node(at, name, params, given, contract, body), rest))
}

// 'method' NAME params [ '->' ( '(' ')' | result ) ] { spec } ':' block
#[tactic(auto, unfolding(crate::specs::ProgramReading::method_decl))]
fn method(alloc: Global, tokens: &[Token]) -> Read<'_, Measured<Decl>>
    ensures { Reads (spec.method_decl true LEVELS (block_at (inside LEVELS)) tokens.now) result }
{
    let (at, rest) = mark(tokens, METHOD)?;
    let ((_, name), rest) = name(alloc, rest)?;
    let (params, rest) = params(alloc, rest)?;
    method_rest(alloc, at, name, params, rest)
}

// [ '->' ( '(' ')' | result ) ] { spec } ':' block, behind the parameters
#[tactic(auto, unfolding(crate::specs::ProgramReading::method_rest))]
fn method_rest<'a>(
    alloc: Global,
    at: u32,
    name: Name,
    params: ParamList,
    tokens: &'a [Token],
) -> Read<'a, Measured<Decl>>
    ensures { Reads (spec.method_rest true LEVELS (block_at (inside LEVELS)) at name params tokens.now) result }
{
    let (given, rest) = method_result(alloc, tokens)?;
    method_body(alloc, at, name, params, given, rest)
}

// { spec } ':' block, behind the result
#[tactic(auto, unfolding(crate::specs::ProgramReading::method_body))]
fn method_body<'a>(
    alloc: Global,
    at: u32,
    name: Name,
    params: ParamList,
    given: MethodGiven,
    tokens: &'a [Token],
) -> Read<'a, Measured<Decl>>
    ensures { Reads (spec.method_body true LEVELS (block_at (inside LEVELS)) at name params given tokens.now) result }
{
    let (contract, rest) = contract(alloc, tokens)?;
    let (_, rest) = mark(rest, COLON)?;
    let (body, rest) = block(alloc, rest, LEVELS - 1)?;
    Ok((method_node(at, name, params, given, contract, body), rest))
}

// [ '->' ( '(' ')' | result ) ]
#[tactic(auto, unfolding(crate::specs::ProgramReading::method_result))]
fn method_result(alloc: Global, tokens: &[Token]) -> Read<'_, MethodGiven>
    ensures { Reads (spec.method_result LEVELS tokens.now) result }
{
    if !next_is(tokens, ARROW) {
        return Ok((Measured::Low(None, 0), tokens));
    }
    let (_, rest) = mark(tokens, ARROW)?;
    if !next_is(rest, OPEN_PAREN) {
        let (ty, rest) = type_part(alloc, rest, LEVELS)?;
        return Ok((some(outcome(ty, None)), rest));
    }
    let (_, rest) = mark(rest, OPEN_PAREN)?;
    if next_is(rest, CLOSE_PAREN) {
        let (_, rest) = mark(rest, CLOSE_PAREN)?;
        return Ok((Measured::Low(None, 0), rest));
    }
    let ((ty, name), rest) = inner_type(alloc, rest)?;
    Ok((some(outcome(ty, name)), rest))
}

// 'property' NAME params where { where } LINE
#[tactic(auto, unfolding(crate::specs::ProgramReading::property_decl))]
fn property(alloc: Global, tokens: &[Token]) -> Read<'_, Measured<Decl>>
    ensures { Reads (spec.property_decl true LEVELS tokens.now) result }
{
    let (at, rest) = mark(tokens, PROPERTY)?;
    let ((_, name), rest) = name(alloc, rest)?;
    let (params, rest) = params(alloc, rest)?;
    property_rest(alloc, at, name, params, rest)
}

// where { where } LINE, behind the parameters
#[tactic(auto, unfolding(crate::specs::ProgramReading::property_rest))]
fn property_rest<'a>(
    alloc: Global,
    at: u32,
    name: Name,
    params: ParamList,
    tokens: &'a [Token],
) -> Read<'a, Measured<Decl>>
    ensures { Reads (spec.property_rest true LEVELS at name params tokens.now) result }
{
    let none = Measured::Low(Items::new(alloc), 0);
    let (first, rest) = where_clause(alloc, none, tokens, LEVELS)?;
    let (clauses, rest) = wheres(alloc, first, rest, LEVELS)?;
    let (_, rest) = mark(rest, LINE_END)?;
    Ok((property_node(at, name, params, clauses), rest))
}

// params = '(' [ type NAME { ',' type NAME } ] ')'
#[tactic(auto, unfolding(crate::specs::ProgramReading::parameters))]
fn params(alloc: Global, tokens: &[Token]) -> Read<'_, ParamList>
    ensures { Reads (spec.parameters LEVELS tokens.now) result }
{
    let (_, rest) = mark(tokens, OPEN_PAREN)?;
    let (params, rest) = param_list(alloc, rest)?;
    let (_, rest) = mark(rest, CLOSE_PAREN)?;
    Ok((params, rest))
}

#[tactic(auto, using(wy_reading::proofs::Turns::reader_steps), unfolding(crate::specs::ProgramReading::param_row))]
fn param_list(alloc: Global, tokens: &[Token]) -> Read<'_, ParamList>
    ensures { Reads (spec.param_row LEVELS tokens.now) result }
{
    let none = Measured::Low(Items::new(alloc), 0);
    if !next_in(tokens, Class::Type) {
        return Ok((none, tokens));
    }
    let (mut made, mut rest) = param(alloc, none, tokens)?;
    for _turn in 0..rest.len() {
        if !next_is(rest, COMMA) {
            return Ok((made, rest));
        }
        let (more, after) = next_param(alloc, made, rest)?;
        made = more;
        rest = after;
    }
    Ok((made, rest))
}

#[tactic(auto, unfolding(crate::specs::ProgramReading::one_param))]
fn param<'a>(alloc: Global, params: ParamList, tokens: &'a [Token]) -> Read<'a, ParamList>
    ensures { Reads (spec.one_param LEVELS params tokens.now) result }
{
    let (ty, rest) = type_part(alloc, tokens, LEVELS - 1)?;
    let ((_, name), rest) = name(alloc, rest)?;
    Ok((pushed(params, param_node(ty, name))?, rest))
}

fn param_node(ty: TypePart, name: Name) -> Measured<Param>
    ensures { result ≡ trees.param ty name }
{
    match ty {
        Measured::Low(ty, height) => {
            let ty = ty.into_inner();
            Measured::Low(Param { ty, name }, height)
        }
        Measured::High(at) => Measured::High(at),
    }
}

fn next_param<'a>(alloc: Global, params: ParamList, tokens: &'a [Token]) -> Read<'a, ParamList>
    ensures { Reads (spec.next_param LEVELS params tokens.now) result }
{
    let (_, rest) = mark(tokens, COMMA)?;
    param(alloc, params, rest)
}

/// The clauses before a call and those after it, as far as they were read.
type Conditions = (Clauses, Clauses);

// { 'requires' expr | 'ensures' expr }
#[tactic(auto, using(wy_reading::proofs::Turns::reader_steps), unfolding(crate::specs::ProgramReading::contract_of))]
fn contract(alloc: Global, tokens: &[Token]) -> Read<'_, Conditions>
    ensures { Reads (spec.contract_of true LEVELS tokens.now) result }
{
    let none = Measured::Low(Items::new(alloc), 0);
    let (mut made, mut rest) = ((none, Measured::Low(Items::new(alloc), 0)), tokens);
    for _turn in 0..tokens.len() {
        if !next_in(rest, Class::Clause) {
            return Ok((made, rest));
        }
        let (more, after) = clause(alloc, made, rest)?;
        made = more;
        rest = after;
    }
    Ok((made, rest))
}

#[tactic(auto, unfolding(crate::specs::ProgramReading::clause))]
fn clause<'a>(alloc: Global, contract: Conditions, tokens: &'a [Token]) -> Read<'a, Conditions>
    ensures { Reads (spec.clause true LEVELS contract tokens.now) result }
{
    let (before, after) = contract;
    if next_is(tokens, REQUIRES) {
        let (_, rest) = mark(tokens, REQUIRES)?;
        let (clause, rest) = expr(alloc, rest, LEVELS)?;
        return Ok(((pushed(before, clause)?, after), rest));
    }
    let (_, rest) = mark(tokens, ENSURES)?;
    let (clause, rest) = expr(alloc, rest, LEVELS)?;
    Ok(((before, pushed(after, clause)?), rest))
}

fn outcome(ty: TypePart, name: Option<Name>) -> Given
    ensures { result ≡ trees.given ty name }
{
    match ty {
        Measured::Low(ty, height) => Measured::Low((ty, name), height),
        Measured::High(at) => Measured::High(at),
    }
}

fn alias_node(
    at: u32,
    name: Name,
    ty: TypePart,
    variable: Option<Name>,
    clauses: Clauses,
) -> Measured<Decl>
    ensures { result ≡ trees.alias_node at name ty variable clauses }
{
    match both(ty, clauses) {
        Measured::Low((ty, clauses), height) => Measured::Low(
            Decl::Alias(Alias {
                at,
                name,
                ty: ty.into_inner(),
                variable,
                clauses,
            }),
            height,
        ),
        Measured::High(at) => Measured::High(at),
    }
}

fn function_node(
    at: u32,
    name: Name,
    params: ParamList,
    given: Given,
    contract: Conditions,
    body: Stmts,
) -> Measured<Decl>
    ensures { result ≡ trees.function_node at name params given contract body }
{
    let (before, after) = contract;
    match both(both(params, given), both(both(before, after), body)) {
        Measured::Low(((params, (result, result_name)), ((before, after), body)), height) => {
            Measured::Low(
                Decl::Function(Function {
                    at,
                    name,
                    params,
                    result: result.into_inner(),
                    result_name,
                    preconditions: before,
                    postconditions: after,
                    body,
                }),
                height,
            )
        }
        Measured::High(at) => Measured::High(at),
    }
}

fn method_node(
    at: u32,
    name: Name,
    params: ParamList,
    given: MethodGiven,
    contract: Conditions,
    body: Stmts,
) -> Measured<Decl>
    ensures { result ≡ trees.method_node at name params given contract body }
{
    let (before, after) = contract;
    match both(both(params, given), both(both(before, after), body)) {
        Measured::Low(((params, result), ((before, after), body)), height) => Measured::Low(
            Decl::Method(Method {
                at,
                name,
                params,
                result: unboxed_result(result),
                preconditions: before,
                postconditions: after,
                body,
            }),
            height,
        ),
        Measured::High(at) => Measured::High(at),
    }
}

fn unboxed_result(given: Option<(Boxed<Ty>, Option<Name>)>) -> Option<(Ty, Option<Name>)>
    ensures { result ≡ given }
{
    match given {
        None => None,
        Some((ty, name)) => Some((ty.into_inner(), name)),
    }
}

fn property_node(at: u32, name: Name, params: ParamList, clauses: Clauses) -> Measured<Decl>
    ensures { result ≡ trees.property_node at name params clauses }
{
    match both(params, clauses) {
        Measured::Low((params, clauses), height) => Measured::Low(
            Decl::Property(Property {
                at,
                name,
                params,
                clauses,
            }),
            height,
        ),
        Measured::High(at) => Measured::High(at),
    }
}
