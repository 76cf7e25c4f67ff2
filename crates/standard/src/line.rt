ghost use Rattle.std.specs.Prelude.{◌≡◌, ◌++◌};
ghost use Rattle.reading.specs.Meaning.{meaning};
ghost use Rattle.coding.specs.ManchesterLaws.{manchester};
ghost use Rattle.coding.specs.BlockLaws.{block};
ghost use Rattle.standard.specs.Standard.{standard, laid_over};

use coding::block::Block;
use coding::manchester::Manchester;
use radio::line::Line;
use reading::Reading;

/// The reading halves of the standard pile, Block over Manchester, over a line.
pub type StandardReading<L> = Reading<Block, Reading<Manchester, L>>;

/// The standard pile over `line`.
pub fn standard_reading<L: Line>(line: L) -> StandardReading<L>
    ensures heard { meaning block (meaning manchester L.Line.heard) result ≡ laid_over (L.Line.heard line) }
    ensures pile { (meaning block (meaning manchester L.Line.heard) result).pile ≡ standard ++ (L.Line.heard line).pile }
{
    Reading::new(Block {}, Reading::new(Manchester {}, line))
}
