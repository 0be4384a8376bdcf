//! Tests of the machine: small routines, under caps, counts of steps and sinks that no command sets.
//!
//! `assembler` makes code of texts, `turns` makes turns until they end, `ends` says how they do, and `rows` has the routines. What each
//! instruction does in a program stands in stored runs.
#![tactic(auto)]

#[cfg(test)]
mod assembler;
#[cfg(test)]
mod ends;
#[cfg(test)]
mod rows;
#[cfg(test)]
mod turns;
