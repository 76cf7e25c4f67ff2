//! What a radio line, an outlet and a pile of layers mean, and writing whole messages into any outlet.
#![tactic(auto)]

pub mod line;
pub mod medium;
pub mod outlet;
pub mod piles;
pub mod symbol;
pub mod turn;
pub mod write;
