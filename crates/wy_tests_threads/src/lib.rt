//! Tests of the shared counter and of the workers that draw from it. They stand in a crate of their own, since a crate with tests is proved
//! twice.
#![tactic(auto)]

#[cfg(test)]
mod discharging;
#[cfg(test)]
mod gates;
#[cfg(test)]
mod owing;
#[cfg(test)]
mod tests;
