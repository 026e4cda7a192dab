//! The tokens of TSDL, the language of CTF metadata (CTF 1.8, section 7.3).
#![tactic(auto)]

mod bytes;
mod comment;
mod laws;
mod lexeme;
mod mark;
mod number;
mod scan;
mod string;
mod token;

pub use laws::one_reading;
pub use scan::{LexError, tokens};
pub use token::{MarkKind, Token, TokenKind};
