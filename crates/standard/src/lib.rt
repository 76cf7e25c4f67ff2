//! The standard pile, Block over Manchester, over any line and any outlet, and what was written through it read back.
#![tactic(auto)]

pub mod line;
pub mod outlet;
