//! Each program has its verdicts: no search goes on for ever, so that it is due that a program is accepted, or that
//! it is refused.
//!
//! The verdicts are those of `wy_top`, of which there is one list.
ghost use Rattle.wy_headline.specs.due.Due.{EachIsKnown, OneIsDue};

/// Whatever the program, the certificates that are supplied and the budget: there is a verdict on each of its
/// conditions, and it is due that the program is accepted, or that it is refused with lines that these verdicts give.
pub fn each_program_has_its_verdicts()
    ensures known { EachIsKnown }
    ensures due { OneIsDue }
{}
