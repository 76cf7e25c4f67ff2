ghost use Rattle.std.specs.Prelude.{◌≡◌, ◌+◌, ◌*◌, ◌≤◌, length};
ghost use Rattle.std.specs.List.{flat_map};
ghost use Rattle.radio.specs.Layer.{Octets};
ghost use Rattle.radio.specs.Outlets.{start};
ghost use Rattle.outlets.specs.Bottoms.{written_at};
ghost use Rattle.outlets.specs.OverMemory.{made_over, over_memory, over_memory_sound, memory_of};

use crate::MemoryOutlet;
use crate::cells::Cells;
use radio::outlet::Outlet;
use radio::turn::Turn;
use refusal::Refusal;
use std::marker::PhantomData;

/// The channel octet of which a preamble is.
const PREAMBLE: u8 = 0xF0;

/// The channel octet that opens a message, behind its preamble.
const OPENING: u8 = 0xCC;

/// The channel octet that ends a message.
const END: u8 = 0x33;

impl<M: Cells> MemoryOutlet<M> {
    /// Takes over the memory. Its space is as many channel octets as fit into it, at most 65,536.
    pub fn new(memory: Vec<u8>) -> MemoryOutlet<M>
        ensures { over_memory result ≡ made_over M.Cells.placement memory }
    {
        let room = M::fitting(memory.len()).min(65536) as u32;
        MemoryOutlet {
            memory,
            used: 0,
            turn: Turn::Idle,
            room,
            cells: PhantomData,
        }
    }

    /// Hands the memory back.
    pub fn into_memory(self) -> Vec<u8>
        ensures same { result ≡ memory_of self }
        ensures octets { Octets result.items }
    {
        self.memory
    }
}

/// Writes what opens a message, from a place on: the preamble and the octet behind it.
fn lay_start<M: Cells>(memory: &mut [u8], place: usize, preamble: usize)
    requires { place + preamble + 1 ≤ M.Cells.placement.fitting (length memory.old) }
    ensures { M.Cells.placement.of_bytes memory.new ≡ written_at (M.Cells.placement.of_bytes memory.old) (M.Cells.placement.width * place) (flat_map M.Cells.placement.of_octet (start preamble)) }
{
    // one by one, and not by `fill`: a frame may begin inside a byte
    for at in place..place + preamble {
        M::lay(memory, at, PREAMBLE);
    }
    M::lay(memory, place + preamble, OPENING);
}

impl<M: Cells> Outlet for MemoryOutlet<M> {
    ghost state = { over_memory };

    ghost sound = { over_memory_sound };

    fn begin(&mut self, preamble: u16, count: usize) -> Result<(), Refusal> {
        self.check_form(preamble, count)?;
        let preamble = usize::from(preamble);
        let needed = preamble + 2 + count;
        if needed > self.room as usize {
            return Err(Refusal::Space);
        }
        lay_start::<M>(&mut self.memory, self.used, preamble);
        self.used += preamble + 1;
        self.turn = Turn::Owing(count as u16);
        self.room -= needed as u32;
        Ok(())
    }

    fn put(&mut self, octet: u8) -> Result<(), Refusal> {
        match self.turn {
            Turn::Owing(n) if n > 0 => {
                M::lay(&mut self.memory, self.used, octet);
                self.used += 1;
                self.turn = Turn::Owing(n - 1);
                Ok(())
            }
            _ => Err(Refusal::Turn),
        }
    }

    fn end(&mut self) -> Result<(), Refusal> {
        let Turn::Owing(0) = self.turn else {
            return Err(Refusal::Turn);
        };
        M::lay(&mut self.memory, self.used, END);
        self.used += 1;
        self.turn = Turn::Idle;
        Ok(())
    }

    fn turn_of(&self) -> Turn {
        self.turn
    }

    fn space_of(&self) -> u32 {
        self.room
    }

    fn unit_of(&self) -> u16 {
        1
    }
}
