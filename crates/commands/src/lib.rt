//! The commands: each line of input is read as a command, then done, and what came of it is printed.
#![tactic(auto)]

mod bodies;
mod command;
pub mod console;
mod hearing;
mod listing;
mod parse;
mod seal;
mod session;
pub mod terminal;
mod unit_line;
mod words;

pub use command::Piles;
pub use session::{serve, serve_with};
