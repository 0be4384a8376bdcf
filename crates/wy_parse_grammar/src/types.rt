//! Types. The readers of one level are methods over a function value that reads what stands on that
//! level, so each is proved by itself, and `tight` alone calls itself.
ghost use Rattle.std.specs.Prelude.{◌≡◌, IfOk};
ghost use Rattle.wy_reading.specs.Reader.{Reads};
ghost use Rattle.wy_parse_grammar.specs.Nests.{Nests};
ghost use Rattle.wy_parse_grammar.specs.Trees as trees;
ghost use Rattle.wy_parse_grammar.specs.TypeGrammar as grammar;
ghost use Rattle.wy_parse_grammar.specs.TypeReading as spec;

use crate::cursor::{
    Read, inner, inside, mark, marked, name, next_in, next_is, too_deep, with_name,
};
use crate::fault::Kind;
use crate::measured::{Measured, both, boxed, named, pushed, ty_node};
use crate::sort::{
    AMPERSAND, BAR, CLOSE_BRACE, CLOSE_BRACKET, CLOSE_PAREN, COMMA, Class, NAME, NOT, OPEN_BRACE,
    OPEN_BRACKET, OPEN_PAREN, has, sort,
};
use std::alloc::{AllocError, Global};
use wy_ast::{Ty, TyKind};
use wy_data::Name;
use wy_items::{Boxed, Items};
use wy_lex::{Token, TokenKind};
use wy_reading::Stop;

/// A record type's fields, as far as they were read.
type Fields = Measured<Items<(Name, Ty)>>;

/// The readers of types that stand where there are so many levels.
#[derive(Clone, Copy)]
struct Types<F> {
    alloc: Global,
    levels: usize,
    /// Reads `tight` on this level.
    tight: F,
}

impl<F: Fn(Global, &[Token], usize) -> Result<(Measured<Ty>, &[Token]), Stop<Kind>>> Types<F> {
    fn tight<'a>(&self, tokens: &'a [Token]) -> Read<'a, Measured<Ty>>
        requires { Nests spec.tight self.now.levels (F.pre self.now.tight) (F.post self.now.tight) }
        ensures { Reads (spec.tight self.now.levels tokens.now) result }
    {
        (self.tight)(self.alloc, tokens, self.levels)
    }

    // type = inter { '|' inter }
    #[tactic(auto, unfolding(crate::specs::TypeReading::union))]
    fn union<'a>(&self, tokens: &'a [Token]) -> Read<'a, Measured<Ty>>
        requires { Nests spec.tight self.now.levels (F.pre self.now.tight) (F.post self.now.tight) }
        ensures { Reads (spec.union self.now.levels (spec.tight self.now.levels) tokens.now) result }
    {
        let (left, rest) = self.inter(tokens)?;
        self.unions(left, rest)
    }

    #[tactic(auto, using(wy_reading::proofs::Turns::reader_steps), unfolding(crate::specs::TypeReading::unions))]
    fn unions<'a>(&self, left: Measured<Ty>, tokens: &'a [Token]) -> Read<'a, Measured<Ty>>
        requires { Nests spec.tight self.now.levels (F.pre self.now.tight) (F.post self.now.tight) }
        ensures { Reads (spec.unions self.now.levels (spec.tight self.now.levels) left tokens.now) result }
    {
        let (mut made, mut rest) = (left, tokens);
        for _turn in 0..tokens.len() {
            if !next_is(rest, BAR) {
                return Ok((made, rest));
            }
            let (more, after) = self.or_inter(made, rest)?;
            made = more;
            rest = after;
        }
        Ok((made, rest))
    }

    fn or_inter<'a>(&self, left: Measured<Ty>, tokens: &'a [Token]) -> Read<'a, Measured<Ty>>
        requires { Nests spec.tight self.now.levels (F.pre self.now.tight) (F.post self.now.tight) }
        ensures { Reads (spec.or_inter self.now.levels (spec.tight self.now.levels) left tokens.now) result }
    {
        let left = boxed(self.alloc, left)?;
        let (at, rest) = mark(tokens, BAR)?;
        let (right, rest) = self.inter(rest)?;
        let right = boxed(self.alloc, right)?;
        Ok((union_node(at, left, right), rest))
    }

    // inter = suffix { '&' suffix }
    #[tactic(auto, unfolding(crate::specs::TypeReading::inter))]
    fn inter<'a>(&self, tokens: &'a [Token]) -> Read<'a, Measured<Ty>>
        requires { Nests spec.tight self.now.levels (F.pre self.now.tight) (F.post self.now.tight) }
        ensures { Reads (spec.inter self.now.levels (spec.tight self.now.levels) tokens.now) result }
    {
        let (left, rest) = self.suffix(tokens)?;
        self.inters(left, rest)
    }

    #[tactic(auto, using(wy_reading::proofs::Turns::reader_steps), unfolding(crate::specs::TypeReading::inters))]
    fn inters<'a>(&self, left: Measured<Ty>, tokens: &'a [Token]) -> Read<'a, Measured<Ty>>
        requires { Nests spec.tight self.now.levels (F.pre self.now.tight) (F.post self.now.tight) }
        ensures { Reads (spec.inters self.now.levels (spec.tight self.now.levels) left tokens.now) result }
    {
        let (mut made, mut rest) = (left, tokens);
        for _turn in 0..tokens.len() {
            if !next_is(rest, AMPERSAND) {
                return Ok((made, rest));
            }
            let (more, after) = self.and_suffix(made, rest)?;
            made = more;
            rest = after;
        }
        Ok((made, rest))
    }

    fn and_suffix<'a>(&self, left: Measured<Ty>, tokens: &'a [Token]) -> Read<'a, Measured<Ty>>
        requires { Nests spec.tight self.now.levels (F.pre self.now.tight) (F.post self.now.tight) }
        ensures { Reads (spec.and_suffix self.now.levels (spec.tight self.now.levels) left tokens.now) result }
    {
        let left = boxed(self.alloc, left)?;
        let (at, rest) = mark(tokens, AMPERSAND)?;
        let (right, rest) = self.suffix(rest)?;
        let right = boxed(self.alloc, right)?;
        Ok((inter_node(at, left, right), rest))
    }

    // suffix = tight { '[' ']' }
    #[tactic(auto, unfolding(crate::specs::TypeReading::suffix))]
    fn suffix<'a>(&self, tokens: &'a [Token]) -> Read<'a, Measured<Ty>>
        requires { Nests spec.tight self.now.levels (F.pre self.now.tight) (F.post self.now.tight) }
        ensures { Reads (spec.suffix self.now.levels (spec.tight self.now.levels) tokens.now) result }
    {
        let (item, rest) = self.tight(tokens)?;
        suffixes(self.alloc, item, rest, self.levels)
    }

    // What stands around this level:
    // tight = '!' tight | 'null' | 'bool' | 'int' | 'any' | 'void' | NAME | '(' type ')'
    //       | '{' [ type NAME { ',' type NAME } ] '}'
    #[tactic(auto, unfolding(crate::specs::TypeReading::tight_of))]
    fn tight_of<'a>(&self, tokens: &'a [Token]) -> Read<'a, Measured<Ty>>
        requires { Nests spec.tight self.now.levels (F.pre self.now.tight) (F.post self.now.tight) }
        ensures { Reads (spec.tight_of self.now.levels (spec.tight self.now.levels) tokens.now) result }
    {
        if next_is(tokens, NOT) {
            let (at, rest) = mark(tokens, NOT)?;
            let (ty, rest) = self.tight(rest)?;
            return Ok((not_node(self.alloc, at, ty)?, rest));
        }
        if next_is(tokens, OPEN_PAREN) {
            let (_, rest) = mark(tokens, OPEN_PAREN)?;
            let (ty, rest) = self.union(rest)?;
            let ((ty, _), rest) = marked(ty, rest, CLOSE_PAREN)?;
            return Ok((ty, rest));
        }
        if next_is(tokens, OPEN_BRACE) {
            let (at, rest) = mark(tokens, OPEN_BRACE)?;
            let (fields, rest) = self.fields(rest)?;
            let (_, rest) = inner(rest, CLOSE_BRACE, self.levels)?;
            return Ok((record_node(at, fields), rest));
        }
        if next_is(tokens, NAME) {
            let ((at, name), rest) = name(self.alloc, tokens)?;
            return Ok((named_node(at, name), rest));
        }
        base(tokens)
    }

    // What stands in '{' and '}': [ type NAME { ',' type NAME } ]
    #[tactic(auto, using(wy_reading::proofs::Turns::reader_steps), unfolding(crate::specs::TypeReading::field_list))]
    fn fields<'a>(&self, tokens: &'a [Token]) -> Read<'a, Fields>
        requires { Nests spec.tight self.now.levels (F.pre self.now.tight) (F.post self.now.tight) }
        ensures { Reads (spec.field_list self.now.levels (spec.tight self.now.levels) tokens.now) result }
    {
        let none = Measured::Low(Items::new(self.alloc), 0);
        if !next_in(tokens, Class::Type) {
            return Ok((none, tokens));
        }
        let (mut made, mut rest) = self.field(none, tokens)?;
        for _turn in 0..rest.len() {
            if !next_is(rest, COMMA) {
                return Ok((made, rest));
            }
            let (more, after) = self.next_field(made, rest)?;
            made = more;
            rest = after;
        }
        Ok((made, rest))
    }

    #[tactic(auto, unfolding(crate::specs::TypeReading::field))]
    fn field<'a>(&self, fields: Fields, tokens: &'a [Token]) -> Read<'a, Fields>
        requires { Nests spec.tight self.now.levels (F.pre self.now.tight) (F.post self.now.tight) }
        ensures { Reads (spec.field self.now.levels (spec.tight self.now.levels) fields tokens.now) result }
    {
        let (ty, rest) = self.union(tokens)?;
        let ((ty, (_, name)), rest) = with_name(self.alloc, ty, rest)?;
        Ok((pushed(fields, named(name, ty))?, rest))
    }

    fn next_field<'a>(&self, fields: Fields, tokens: &'a [Token]) -> Read<'a, Fields>
        requires { Nests spec.tight self.now.levels (F.pre self.now.tight) (F.post self.now.tight) }
        ensures { Reads (spec.next_field self.now.levels (spec.tight self.now.levels) fields tokens.now) result }
    {
        let (_, rest) = mark(tokens, COMMA)?;
        self.field(fields, rest)
    }
}

// { '[' ']' }, behind the type of the items
#[tactic(auto, using(wy_reading::proofs::Turns::reader_steps), unfolding(crate::specs::TypeReading::suffixes))]
fn suffixes<'a>(
    alloc: Global,
    item: Measured<Ty>,
    tokens: &'a [Token],
    levels: usize,
) -> Read<'a, Measured<Ty>>
    ensures { Reads (spec.suffixes levels item tokens.now) result }
{
    let (mut made, mut rest) = (item, tokens);
    for _turn in 0..tokens.len() {
        if !next_is(rest, OPEN_BRACKET) {
            return Ok((made, rest));
        }
        let (more, after) = brackets(alloc, made, rest, levels)?;
        made = more;
        rest = after;
    }
    Ok((made, rest))
}

fn brackets<'a>(
    alloc: Global,
    item: Measured<Ty>,
    tokens: &'a [Token],
    levels: usize,
) -> Read<'a, Measured<Ty>>
    ensures { Reads (spec.brackets levels item tokens.now) result }
{
    let item = boxed(alloc, item)?;
    let (at, rest) = mark(tokens, OPEN_BRACKET)?;
    let (_, rest) = inner(rest, CLOSE_BRACKET, inside(levels))?;
    Ok((array_of(at, item), rest))
}

/// `tight` where there are so many levels.
#[tactic(auto, using(crate::proofs::StepLemmas::tight_steps))]
fn tight(
    alloc: Global,
    tokens: &[Token],
    levels: usize,
) -> Result<(Measured<Ty>, &[Token]), Stop<Kind>>
    ensures { Reads (spec.tight levels tokens.now) result }
{
    if levels == 0 {
        return too_deep(tokens, Class::Type);
    }
    let deeper = Types {
        alloc,
        levels: levels - 1,
        tight,
    };
    deeper.tight_of(tokens)
}

// A word that is a type.
#[tactic(auto, unfolding(crate::specs::TypeReading::base))]
fn base(tokens: &[Token]) -> Read<'_, Measured<Ty>>
    ensures { Reads (spec.base tokens.now) result }
{
    match tokens {
        [first, rest @ ..] if has(Class::BaseType, sort(&first.kind)) => {
            Ok((
                ty_node(first.at, Measured::Low(base_kind(&first.kind), 0)),
                rest,
            ))
        }
        _ => Err(Stop::Unexpected(tokens.len())),
    }
}

fn base_kind(kind: &TokenKind) -> TyKind
    ensures { result ≡ grammar.base_kind kind.now }
{
    match kind {
        TokenKind::Null => TyKind::Null,
        TokenKind::Bool => TyKind::Bool,
        TokenKind::Int => TyKind::Int,
        TokenKind::Any => TyKind::Any,
        _ => TyKind::Void,
    }
}

/// A type that stands where there are so many levels.
#[tactic(auto, unfolding(crate::specs::TypeReading::type_term))]
pub fn type_term(alloc: Global, tokens: &[Token], levels: usize) -> Read<'_, Measured<Ty>>
    ensures { Reads (spec.type_term levels tokens.now) result }
{
    let types = Types {
        alloc,
        levels,
        tight,
    };
    types.union(tokens)
}

/// The rest of a type that begins with the one that was read, a `tight` or an array of it.
#[tactic(auto, unfolding(crate::specs::TypeReading::type_rest, crate::specs::TypeReading::type_tail, crate::specs::TypeReading::rest))]
pub fn type_rest<'a>(
    alloc: Global,
    begun: Measured<Ty>,
    tokens: &'a [Token],
    levels: usize,
) -> Read<'a, Measured<Ty>>
    ensures { Reads (spec.type_rest levels begun tokens.now) result }
{
    let (item, rest) = suffixes(alloc, begun, tokens, levels)?;
    type_tail(alloc, item, rest, levels)
}

/// The rest of a type that begins with the one that was read, a `suffix`.
#[tactic(auto, unfolding(crate::specs::TypeReading::type_tail, crate::specs::TypeReading::tail))]
pub fn type_tail<'a>(
    alloc: Global,
    begun: Measured<Ty>,
    tokens: &'a [Token],
    levels: usize,
) -> Read<'a, Measured<Ty>>
    ensures { Reads (spec.type_tail levels begun tokens.now) result }
{
    let types = Types {
        alloc,
        levels,
        tight,
    };
    let (left, rest) = types.inters(begun, tokens)?;
    types.unions(left, rest)
}

/// The type that a name stands for.
pub fn named_node(at: u32, name: Name) -> Measured<Ty>
    ensures { result ≡ trees.named_ty at name }
{
    ty_node(at, Measured::Low(TyKind::Named(name), 0))
}

/// The type of arrays of such items.
pub fn array_node(alloc: Global, at: u32, item: Measured<Ty>) -> Result<Measured<Ty>, AllocError>
    ensures { IfOk result (λ t. t ≡ trees.array_ty at item) }
{
    Ok(array_of(at, boxed(alloc, item)?))
}

fn array_of(at: u32, item: Measured<Boxed<Ty>>) -> Measured<Ty>
    ensures { result ≡ trees.array_ty at item }
{
    let kind = match item {
        Measured::Low(item, height) => Measured::Low(TyKind::Array(item), height),
        Measured::High(at) => Measured::High(at),
    };
    ty_node(at, kind)
}

fn not_node(alloc: Global, at: u32, ty: Measured<Ty>) -> Result<Measured<Ty>, AllocError>
    ensures { IfOk result (λ t. t ≡ trees.not_ty at ty) }
{
    let kind = match boxed(alloc, ty)? {
        Measured::Low(ty, height) => Measured::Low(TyKind::Not(ty), height),
        Measured::High(at) => Measured::High(at),
    };
    Ok(ty_node(at, kind))
}

fn union_node(at: u32, left: Measured<Boxed<Ty>>, right: Measured<Boxed<Ty>>) -> Measured<Ty>
    ensures { result ≡ trees.union_ty at left right }
{
    let kind = match both(left, right) {
        Measured::Low((left, right), height) => Measured::Low(TyKind::Union(left, right), height),
        Measured::High(at) => Measured::High(at),
    };
    ty_node(at, kind)
}

fn inter_node(at: u32, left: Measured<Boxed<Ty>>, right: Measured<Boxed<Ty>>) -> Measured<Ty>
    ensures { result ≡ trees.inter_ty at left right }
{
    let kind = match both(left, right) {
        Measured::Low((left, right), height) => Measured::Low(TyKind::Inter(left, right), height),
        Measured::High(at) => Measured::High(at),
    };
    ty_node(at, kind)
}

fn record_node(at: u32, fields: Fields) -> Measured<Ty>
    ensures { result ≡ trees.record_ty at fields }
{
    let kind = match fields {
        Measured::Low(fields, height) => Measured::Low(TyKind::Record(fields), height),
        Measured::High(at) => Measured::High(at),
    };
    ty_node(at, kind)
}
