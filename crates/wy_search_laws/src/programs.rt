//! What the search finds of a program has certificates.
//!
//! The conditions of a program meet all that the law on certificates of what the search finds (`certified`) asks of formulas
//! and of named types, so nothing is left to ask.
ghost use Rattle.wy_search_laws.specs.programs.CertifiedPrograms.{FoundConditionsAreCertified, FoundProgramsAreCertified};

/// Each condition of a program that the search finds within some budget has a valid certificate, whatever the program and its
/// flow types. Where that is so of each of its conditions, there are certificates with a valid one for each under its number,
/// from 1.
pub fn found_programs_are_certified()
    ensures conditions { FoundConditionsAreCertified }
    ensures programs { FoundProgramsAreCertified }
{}
