ghost use Rattle.std.specs.Prelude.{◌≡◌, Ok, Err, MatchResult};
ghost use Rattle.radio.specs.Lines.{past};
ghost use Rattle.station.specs.Judging.{collected};

use arrayvec::ArrayVec;
use radio::line::Line;
use radio::symbol::Symbol;
use refusal::Refusal;

/// Takes the symbols of the present reception, if it ended whole behind 1 to 96.
pub(crate) fn collect<L: Line>(line: &mut L) -> Result<ArrayVec<Symbol, 96>, Refusal>
    ensures answers { MatchResult result (λ v. collected (L.Line.heard line.old).present ≡ Ok v.items) (λ e. collected (L.Line.heard line.old).present ≡ Err e) }
    ensures left { L.Line.heard line.new ≡ past 97 (L.Line.heard line.old) }
{
    let mut symbols = ArrayVec::new();
    while let Some(symbol) = line.take()? {
        symbols.try_push(symbol).map_err(|_| Refusal::Extent)?;
    }
    if symbols.is_empty() {
        return Err(Refusal::Extent);
    }
    Ok(symbols)
}
