//! The station: its filters, and the read that believes a message or turns it down.
#![tactic(auto)]

mod collect;
mod counted;
pub mod exact;
mod fields;
pub mod filters;
mod judge;
mod receive;
pub mod rounding;
pub mod small_unit;
pub mod station;
