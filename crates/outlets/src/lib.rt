//! The bottom outlets: over a memory of octets, and over a memory of bits.
#![tactic(auto)]

ghost use Rattle.std.specs.Prelude.{◌+◌, ◌≤◌, vec_len};
ghost use Rattle.outlets.specs.Bottoms.{reserved, Laid};

use crate::cells::Cells;
use radio::turn::Turn;
use std::marker::PhantomData;

pub mod bit_outlet;
mod cells;
pub mod octet_outlet;
mod writing;

/// An outlet that writes channel octets into a memory of its own, one behind the other from the start.
/// All that lies behind them stays as it was.
#[derive(Drop)]
pub struct MemoryOutlet<M: Cells> {
    memory: Vec<u8>,
    // the channel octets written: no length of the memory, since what lies behind them is kept
    used: usize,
    turn: Turn,
    room: u32,
    cells: PhantomData<M>,
    ghost few: { room ≤ 65536 },
    ghost fits: { used + reserved turn + room ≤ M.Cells.placement.fitting (vec_len memory) },
    ghost laid: { Laid M.Cells.placement memory.items used },
}
