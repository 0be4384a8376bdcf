//! Why a program is refused.

/// Why a program is refused, with the byte offset where. The fault at the least place is given, and
/// at one place `Unset` before `NoReturn`.
#[derive(Clone, Copy, Debug, PartialEq, Eq)]
pub enum AssignFault {
    /// A use that some path reaches without an assignment to its variable, as the second line of
    /// `int y` and `return y`. An update of a part, as `y[0] = 1`, uses its variable, at its first
    /// token.
    Unset(u32),
    /// A function or method with a result, some path of which ends without `return` or `fail`, as one
    /// whose body is `skip`: the place of its declaration.
    NoReturn(u32),
    NoMemory,
}
