//! From the bytes of a shader to its tokens (GLSL ES 1.00.17 chapter 3). `check_charset` answers whether each byte
//! outside comments is a character of the language; `lex` answers the tokens of the source by longest match, or the
//! line at which no token begins or a comment is not closed. Both are equal to their definitions, in `glsl_tree`.
#![tactic(auto)]

mod characters;
mod charset;
mod comments;
mod errors;
mod numbers;
mod pieces;
mod scan;
mod scanner;
mod spellings;

pub use charset::check_charset;
pub use errors::Lex;
pub use scan::lex;

#[cfg(test)]
mod tests;
