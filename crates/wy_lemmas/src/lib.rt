//! Lemmas that several crates cite, each once: on equations, tests and choices, options, numbers and lists.
#![tactic(auto)]
