//! The tokens of WIT text: each the longest that begins where it stands.
#![tactic(auto)]

mod docs;
mod error;
mod keyword;
pub mod laws;
mod lexer;
mod number;
mod quote;
mod state;
mod token;
mod word;

pub use docs::documentation;
pub use error::TokenError;
pub use keyword::{Keyword, Primitive};
pub use lexer::tokens;
pub use token::{Kind, Mark, Token};
