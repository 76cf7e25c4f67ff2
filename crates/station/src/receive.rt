ghost use Rattle.std.specs.Prelude.{◌≡◌};
ghost use Rattle.radio.specs.Lines.{past};
ghost use Rattle.station.specs.Judging.{believed};
ghost use Rattle.station.specs.Units.{octets_in};

use crate::collect::collect;
use crate::fields::Judged;
use crate::judge::judge;
use crate::small_unit::SmallUnit;
use radio::line::Line;
use refusal::Refusal;

/// Takes the present reception and answers the message in it.
#[tactic(auto, using(crate::proofs::Judged::is_summed))]
pub(crate) fn receive<L: Line>(line: &mut L, unit: SmallUnit) -> Result<Judged, Refusal>
    ensures answers { result ≡ believed (octets_in unit) (L.Line.heard line.old).present }
    ensures left { L.Line.heard line.new ≡ past 97 (L.Line.heard line.old) }
{
    let symbols = collect(line)?;
    let counted = judge(&symbols, unit)?;
    Judged::of(counted)
}
