//! Tests of elimination, and of the least congruence of equations between nodes, whose steps and numbers no command shows.
#![tactic(auto)]

#[cfg(test)]
mod congruence;
#[cfg(test)]
mod elimination;
