//! Text: the words of a line, the numbers and octets in them, and how these are written.
#![tactic(auto)]

pub mod hex;
pub mod number;
pub mod shown;
pub mod stop;
pub mod words;
