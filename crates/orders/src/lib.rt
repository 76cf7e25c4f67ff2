//! Sending a sealed message, and runs of orders on a station, a line and an outlet, with the law of the whole radio.
#![tactic(auto)]

pub mod order;
pub mod run;
pub mod send;
