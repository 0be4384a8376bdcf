//! From the bytes of a source to its tokens, or to the first fault in them.
//!
//! `source` makes characters with their places of the bytes (`symbol`) and reads them piece by piece
//! (`pieces`). A piece is a word, a literal or a symbol (`lexeme`, over the tables in `words`), a slash
//! with the comment that it begins (`comment`), blanks, or a line end. What was read so far is a state
//! (`layout`): the tokens, the open blocks (`blocks`), the open brackets, and how far the line has come.
//! A token that begins a line puts LINE, IN and OUT before itself, by the line's indentation.
//!
//! `specs/Grammar.antt` says what the tokens of a source are, as a relation, `specs/Layout.antt` what a
//! token does to lines and blocks, and `specs/Reading.antt` has the same grammar as functions, each of
//! which is one here; that both agree is proved of every source. Nothing recurses on the source.
#![tactic(auto)]

mod blocks;
mod comment;
mod fault;
mod laws;
mod layout;
mod lexeme;
mod pieces;
mod source;
mod symbol;
mod token;
mod words;

pub use fault::LexFault;
pub use laws::{
    a_line_begins_by_its_indentation, a_source_has_one_fault, a_source_has_one_reading,
    each_token_is_proper, places_rise, the_last_token_is_end,
};
pub use source::tokens;
pub use token::{Token, TokenKind};
