//! The table of a program's declarations.
ghost use Rattle.std.specs.Prelude.{◌≡◌, ◌+◌, ◌<◌, map, IfOk};
ghost use Rattle.wy_ast.specs.SurfaceSeen.{seen_decl};
ghost use Rattle.wy_names_scope.specs.Declarations as declarations;

use crate::fault::{Cause, Fault, noted_where};
use crate::table::{Entry, Signature, Table};
use std::alloc::{AllocError, Global};
use wy_ast::Decl;
use wy_data::Name;

/// How many of each kind came before.
#[derive(Clone, Copy)]
struct Counts {
    types: u32,
    routines: u32,
    decls: u32,
}

/// The table of the declarations, behind the two built-in methods, and the fault to be given among
/// those of names declared again: `Twice` at each declaration whose name came before. Types have the
/// numbers from 0 in order, and so have functions and methods together; `print` and `print_int` have the two numbers behind the last function or method. Linear in the number of
/// declarations. More than 2^32 - 3 of them are answered as want of memory.
pub fn declare(alloc: Global, decls: &[Decl]) -> Result<(Table, Option<Fault>), AllocError>
    ensures value { IfOk result (λ r. (r.0, r.1) ≡ declarations.declared (map seen_decl decls.now)) }
{
    let mut table = with_builtins(alloc, routine_count(decls)?)?;
    let mut found = None;
    let mut counts = Counts {
        types: 0,
        routines: 0,
        decls: 0,
    };
    for decl in decls {
        found = noted_where(
            table.has(name_of(decl)),
            found,
            place_of(decl),
            Cause::Twice,
        );
        table.put(alloc, name_of(decl), entry_of(decl, counts))?;
        counts = behind(decl, counts)?;
    }
    Ok((table, found))
}

/// `print` and `print_int`, behind this many functions and methods.
fn with_builtins(alloc: Global, number: u32) -> Result<Table, AllocError>
    requires { number < 4294967294 }
    ensures value { IfOk result (λ table. table ≡ declarations.builtins number) }
{
    let mut table = Table::new(alloc);
    let print = Name::new(String::from_str(alloc, "print")?);
    table.put(alloc, &print, builtin(number))?;
    let print_int = Name::new(String::from_str(alloc, "print_int")?);
    table.put(alloc, &print_int, builtin(number + 1))?;
    Ok(table)
}

/// A built-in method with this number.
fn builtin(number: u32) -> Entry
    ensures value { result ≡ declarations.builtin number }
{
    Entry::Routine(Signature {
        number,
        arity: 1,
        is_method: true,
        has_result: false,
    })
}

/// How many functions and methods there are, at most 2^32 - 3.
fn routine_count(decls: &[Decl]) -> Result<u32, AllocError>
    ensures value { IfOk result (λ n. n ≡ declarations.routine_count (map seen_decl decls.now)) }
    ensures within { IfOk result (λ n. n < 4294967294) }
{
    let mut count = 0u32;
    for decl in decls {
        if is_routine(decl) {
            if count >= 4294967293 {
                return Err(AllocError);
            }
            count += 1;
        }
    }
    Ok(count)
}

fn is_routine(decl: &Decl) -> bool
    ensures value { result ≡ declarations.is_routine (seen_decl decl.now) }
{
    match decl {
        Decl::Alias(_) => false,
        Decl::Function(_) => true,
        Decl::Method(_) => true,
        Decl::Property(_) => false,
    }
}

fn name_of(decl: &Decl) -> &Name
    ensures value { result.now ≡ declarations.name_of (seen_decl decl.now) }
{
    match decl {
        Decl::Alias(alias) => &alias.name,
        Decl::Function(function) => &function.name,
        Decl::Method(method) => &method.name,
        Decl::Property(property) => &property.name,
    }
}

fn place_of(decl: &Decl) -> u32
    ensures value { result ≡ declarations.place_of (seen_decl decl.now) }
{
    match decl {
        Decl::Alias(alias) => alias.at,
        Decl::Function(function) => function.at,
        Decl::Method(method) => method.at,
        Decl::Property(property) => property.at,
    }
}

/// What the name of the declaration stands for, behind those counted.
fn entry_of(decl: &Decl, counts: Counts) -> Entry
    ensures value { result ≡ declarations.entry_of (seen_decl decl.now) counts }
{
    match decl {
        Decl::Alias(_) => Entry::Type(counts.types, counts.decls),
        Decl::Function(function) => Entry::Routine(Signature {
            number: counts.routines,
            arity: function.params.len(),
            is_method: false,
            has_result: true,
        }),
        Decl::Method(method) => Entry::Routine(Signature {
            number: counts.routines,
            arity: method.params.len(),
            is_method: true,
            has_result: method.result.is_some(),
        }),
        Decl::Property(property) => Entry::Property(counts.decls, property.params.len()),
    }
}

/// The counts behind the declaration.
fn behind(decl: &Decl, counts: Counts) -> Result<Counts, AllocError>
    ensures value { IfOk result (λ n. n ≡ declarations.behind (seen_decl decl.now) counts) }
{
    let decls = one_more(counts.decls)?;
    match decl {
        Decl::Alias(_) => Ok(Counts {
            types: one_more(counts.types)?,
            routines: counts.routines,
            decls,
        }),
        Decl::Function(_) => Ok(Counts {
            types: counts.types,
            routines: one_more(counts.routines)?,
            decls,
        }),
        Decl::Method(_) => Ok(Counts {
            types: counts.types,
            routines: one_more(counts.routines)?,
            decls,
        }),
        Decl::Property(_) => Ok(Counts {
            types: counts.types,
            routines: counts.routines,
            decls,
        }),
    }
}

/// One more, where it fits.
fn one_more(count: u32) -> Result<u32, AllocError>
    ensures value { IfOk result (λ n. n ≡ count + 1) }
{
    if count == u32::MAX {
        return Err(AllocError);
    }
    Ok(count + 1)
}
