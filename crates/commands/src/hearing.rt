//! What a recording holds.
ghost use Rattle.std.specs.Prelude.{◌≡◌, IfOk, string_bytes};
ghost use Rattle.coding.specs.BlockLaws.{block};
ghost use Rattle.reading.specs.Meaning.{meaning};
ghost use Rattle.commands.specs.Answers.{listing_text};
ghost use Rattle.commands.specs.Hearings.{blocks_over, through, heard_by};

use crate::command::{Bottom, Ear, Pile, Recording};
use crate::listing::listing;
use crate::unit_line::UnitLine;
use coding::block::Block;
use lines::bit_line::BitLine;
use lines::octet_line::OctetLine;
use radio::line::Line;
use reading::Reading;
use standard::line::standard_reading;
use std::alloc::{AllocError, Global};

/// All receptions of a recording, heard as it says.
pub(crate) fn hearing(heap: Global, recording: &Recording) -> Result<String, AllocError>
    ensures { IfOk result (λ s. string_bytes s ≡ listing_text (heard_by recording.now.ear recording.now.bytes.items).coming) }
{
    let bytes = recording.bytes.as_slice();
    match recording.ear {
        Ear::Piled(Bottom::Octets, pile) => listing_through(heap, pile, OctetLine::new(bytes)),
        Ear::Piled(Bottom::Bits, pile) => listing_through(heap, pile, BitLine::new(bytes)),
        Ear::Unit(unit) => listing(heap, UnitLine::new(bytes, unit)),
    }
}

/// All receptions of a line, heard through a pile.
fn listing_through<L: Line + Drop>(heap: Global, pile: Pile, line: L) -> Result<String, AllocError>
    ensures { IfOk result (λ s. string_bytes s ≡ listing_text (through pile (L.Line.heard line)).coming) }
{
    match pile {
        Pile::Plain => listing(heap, line),
        Pile::Standard => listing(heap, standard_reading(line)),
        Pile::Blocks => listing(heap, blocks_reading(line)),
    }
}

/// Three Block layers over a line.
pub(crate) fn blocks_reading<L: Line>(line: L) -> Reading<Block, Reading<Block, Reading<Block, L>>>
    ensures { meaning block (meaning block (meaning block L.Line.heard)) result ≡ blocks_over (L.Line.heard line) }
{
    let lowest = Reading::new(Block {}, line);
    Reading::new(Block {}, Reading::new(Block {}, lowest))
}
