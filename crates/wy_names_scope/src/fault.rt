//! Faults of names, and which of several is given.
ghost use Rattle.std.specs.Prelude.{◌≡◌};
ghost use Rattle.wy_names_scope.specs.Faults as faults;

/// Why a program is refused.
#[derive(Clone, Copy, Debug, PartialEq, Eq)]
pub enum Cause {
    /// No such type, variable, function, method or property is in scope.
    Unknown,
    /// A declaration, variable in scope, parameter, field of one record or built-in name is declared
    /// again.
    Twice,
    /// A type recurs with no record or array on the way, or through a test of a clause.
    BareRecursion,
    /// The expansion of a property has no end.
    PropertyLoop,
    /// A function or method is called inside a contract or a quantifier.
    CallInContract,
    /// A function calls a method.
    MethodInFunction,
    /// A wrong number of arguments or of results.
    Arity,
    /// `break` or `continue` outside a loop.
    OutsideLoop,
    /// An expression has more than 4,096 nodes or is higher than 400, its properties expanded.
    TooLarge,
}

/// Why a program is refused, and the byte offset where.
#[derive(Clone, Copy, Debug, PartialEq, Eq)]
pub struct Fault {
    pub at: u32,
    pub cause: Cause,
}

/// The number of the cause, by which faults at one place are put in order.
fn rank(cause: Cause) -> u32
    ensures value { result ≡ faults.rank cause }
{
    match cause {
        Cause::Unknown => 1,
        Cause::Twice => 2,
        Cause::BareRecursion => 3,
        Cause::PropertyLoop => 4,
        Cause::CallInContract => 5,
        Cause::MethodInFunction => 6,
        Cause::Arity => 7,
        Cause::OutsideLoop => 8,
        Cause::TooLarge => 9,
    }
}

/// The fault to be given, of the one found so far and one more: the one at the lesser place, at one
/// place the one of lesser rank.
pub fn noted(found: Option<Fault>, at: u32, cause: Cause) -> Option<Fault>
    ensures value { result ≡ faults.noted found at cause }
{
    match found {
        None => Some(Fault { at, cause }),
        Some(other) => {
            let first = at < other.at || (at == other.at && rank(cause) < rank(other.cause));
            if first {
                Some(Fault { at, cause })
            } else {
                Some(other)
            }
        }
    }
}

/// The same, where the fault stands.
pub fn noted_where(stands: bool, found: Option<Fault>, at: u32, cause: Cause) -> Option<Fault>
    ensures value { result ≡ faults.noted_where stands found at cause }
{
    if stands {
        noted(found, at, cause)
    } else {
        found
    }
}
