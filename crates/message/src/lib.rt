//! The message format: a checked header, a draft, a sealed message.
#![tactic(auto)]

mod buffer;
pub mod draft;
pub mod header;
pub mod sealed;
pub mod sum;
