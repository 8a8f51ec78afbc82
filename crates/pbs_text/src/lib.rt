//! The text of a specification: `specs/` says what specification a text stands for, and by which rule another is refused.
//! Here are the types of which that speaks.
#![tactic(auto)]

mod fail;
mod token;

pub use fail::ReadSpec;
pub use token::{Operator, Piece, Token, TokenKind};
