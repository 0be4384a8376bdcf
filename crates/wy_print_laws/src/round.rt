//! The round trip: what a printed program is read as.
//!
//! It has no code. `laws` has what is proved of the printer together with the lexer and the grammar.
//!
//! The round trip of statements: what their printed lines are read as.
//!
//! It has no code. Its lemmas say of each statement that lines which are its text, behind any margin, are
//! cut into tokens that the grammar of statements reads as that statement again, but for its places; the
//! law of whole programs rests on them.
//!
//! The round trip of whole programs: what a printed program is read as.
//!
//! It has no code. `laws` has what is proved of the printer together with the lexer and the parser's
//! grammar.

mod laws;
mod round_programs_laws;
mod round_statements_laws;
