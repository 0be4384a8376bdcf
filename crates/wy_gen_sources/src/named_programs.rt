//! What the code of a program asks of its core besides that it is formed: the core of a program with names has it.
//!
//! docs/how/CODE.md says where it is asked.
ghost use Rattle.wy_gen_sources.specs.named_programs.NamedPrograms.{NamedAreInOrder, NamedNameTheirs};

/// The parameters of each function and method of a core have the first numbers, in order.
pub fn named_parameters_are_in_order()
    ensures order { NamedAreInOrder }
{}

/// Where each type as it is written has a variable where it has clauses, so has each type of the core.
pub fn named_clauses_have_variables()
    ensures theirs { NamedNameTheirs }
{}
