//! The reading half of a layer: over any line, itself a line.
#![tactic(auto)]

use arrayvec::IntoIter;
use coding::Coding;
use radio::line::Line;
use radio::symbol::Symbol;
use refusal::Fault;

mod gather;
mod half;

/// The reading half of a layer over a line, itself a line. It keeps the symbols of the last group that are
/// not yet taken, how many symbols it has decoded in this reception, and the fault of a torn group.
#[derive(Drop)]
pub struct Reading<C: Coding, L: Line> {
    below: L,
    coding: C,
    waiting: IntoIter<Symbol, 8>,
    given: u16,
    torn: Option<Fault>,
}
