//! Lemmas on the core that several crates cite: what an expression and a type stand for, by their kind. There is no code here.
#![tactic(auto)]
