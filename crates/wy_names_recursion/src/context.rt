//! Where a node stands, and what a call owes there.
ghost use Rattle.std.specs.Prelude.{◌≡◌};
ghost use Rattle.wy_names_recursion.specs.Calls as calls;

use wy_names_scope::{Cause, Entry, Fault, Signature, noted, noted_where};

/// Where a node stands.
#[derive(Clone, Copy)]
pub struct Context {
    /// In a function, its contract included.
    pub is_function: bool,
    /// In a body that gives something back.
    pub has_result: bool,
    /// In the body of a loop.
    pub in_loop: bool,
    /// In a clause, an `assert` or a quantifier.
    pub is_contract: bool,
}

/// Inside a clause, an `assert` or a quantifier.
pub fn contract(context: Context) -> Context
    ensures value { result ≡ calls.contract context }
{
    Context {
        is_function: context.is_function,
        has_result: context.has_result,
        in_loop: context.in_loop,
        is_contract: true,
    }
}

/// Inside the body of a loop.
pub fn looped(context: Context) -> Context
    ensures value { result ≡ calls.looped context }
{
    Context {
        is_function: context.is_function,
        has_result: context.has_result,
        in_loop: true,
        is_contract: context.is_contract,
    }
}

/// The faults of a call of what a name stands for, with this many arguments. Whether it is
/// `for_value`: an expression wants a result, a statement doesn't, and is no use of a property.
pub fn call(
    context: Context,
    for_value: bool,
    callee: Option<Entry>,
    count: usize,
    at: u32,
    found: Option<Fault>,
) -> Option<Fault>
    ensures value { result ≡ calls.call context for_value callee count at found }
{
    match callee {
        None => noted(found, at, Cause::Unknown),
        Some(Entry::Type(_, _)) => noted(found, at, Cause::Unknown),
        Some(Entry::Variable(_)) => noted(found, at, Cause::Unknown),
        Some(Entry::Property(_, arity)) => {
            if for_value {
                noted_where(count != arity, found, at, Cause::Arity)
            } else {
                noted(found, at, Cause::Unknown)
            }
        }
        Some(Entry::Routine(signature)) => {
            call_routine(context, for_value, signature, count, at, found)
        }
    }
}

fn call_routine(
    context: Context,
    for_value: bool,
    signature: Signature,
    count: usize,
    at: u32,
    found: Option<Fault>,
) -> Option<Fault>
    ensures value { result ≡ calls.call_routine context for_value signature count at found }
{
    let found = noted_where(context.is_contract, found, at, Cause::CallInContract);
    let is_barred = signature.is_method && context.is_function;
    let found = noted_where(is_barred, found, at, Cause::MethodInFunction);
    let found = noted_where(count != signature.arity, found, at, Cause::Arity);
    let lacks_result = for_value && !signature.has_result;
    noted_where(lacks_result, found, at, Cause::Arity)
}

/// Whether the name stands for a variable.
pub fn is_variable(entry: Option<Entry>) -> bool
    ensures value { result ≡ calls.is_variable entry }
{
    match entry {
        Some(Entry::Variable(_)) => true,
        _ => false,
    }
}

/// Whether the name stands for a type.
pub fn is_type(entry: Option<Entry>) -> bool
    ensures value { result ≡ calls.is_type entry }
{
    match entry {
        Some(Entry::Type(_, _)) => true,
        _ => false,
    }
}
