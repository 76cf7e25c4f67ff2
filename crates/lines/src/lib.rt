//! The bottom lines: what was heard as octets, and what was heard as bits.
#![tactic(auto)]

pub mod bit_line;
pub mod byte_line;
pub mod octet_line;
mod recorded;
mod window;
