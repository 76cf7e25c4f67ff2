ghost use Rattle.std.specs.Prelude.{◌≡◌, ◌≤◌, true, not, length, Ok, Err, MatchResult, position, count_by};
ghost use Rattle.refusal.specs.declared.Refusal.TheVariants.{Spoiled as Spoilt};
ghost use Rattle.station.specs.Judging.{require, is_clean, few_spoiled, one_spoiled, blank, mended, summed};
ghost use Rattle.station.specs.Counting.{Opens};
ghost use Rattle.station.specs.Units.{octets_in};

use crate::counted::Counted;
use crate::small_unit::SmallUnit;
use radio::symbol::Symbol;
use refusal::Refusal;

/// The octets of the message that the symbols open with, the spoiled one worked out.
pub(crate) fn judge(symbols: &[Symbol], unit: SmallUnit) -> Result<Counted, Refusal>
    ensures { result ≡ summed (octets_in unit) symbols.now }
{
    work_out(count(symbols, unit)?)
}

/// The symbols of the message by its Number, if few are spoiled, as many came, and behind the end all are 00.
fn count(symbols: &[Symbol], unit: SmallUnit) -> Result<&[Symbol], Refusal>
    ensures { MatchResult result (λ m. Opens (octets_in unit) symbols.now m.now) (λ e. summed (octets_in unit) symbols.now ≡ Err e) }
{
    check_spoiled(symbols)?;
    let [Symbol::Clean(number), ..] = symbols else {
        return Err(Refusal::Count);
    };
    let number = *number;
    if number < 6 || number > 74 || unit.padded_length(number) != symbols.len() {
        return Err(Refusal::Count);
    }
    let number = usize::from(number);
    if !is_blank(&symbols[number..]) {
        return Err(Refusal::Pad);
    }
    Ok(&symbols[..number])
}

/// Fills in the values of the symbols of a message and works out the spoiled one.
#[tactic(auto, using(crate::proofs::Spoilt::worked_some, crate::proofs::Spoilt::worked_none))]
fn work_out(symbols: &[Symbol]) -> Result<Counted, Refusal>
    requires { (6 ≤ length symbols.now) × (length symbols.now ≤ 74) × (one_spoiled symbols.now ≡ true) }
    ensures { result ≡ mended symbols.now }
{
    let counted = Counted::filled(symbols);
    match first_spoiled(symbols) {
        Some(place) => counted.mend(place),
        None => counted.check_sum(),
    }
}

/// The place of the first spoiled symbol.
fn first_spoiled(symbols: &[Symbol]) -> Option<usize>
    ensures { result ≡ position (λ s. not (is_clean s)) symbols.now }
{
    symbols.iter().position(|s| matches!(s, Symbol::Spoiled))
}

/// `Spoiled` if the first symbol is spoiled, or more than one.
#[tactic(auto, using(crate::proofs::Spoilt::few_first, crate::proofs::Spoilt::few_many, crate::proofs::Spoilt::few_all))]
fn check_spoiled(symbols: &[Symbol]) -> Result<(), Refusal>
    ensures { result ≡ require (few_spoiled symbols.now) Spoilt (Ok tt) }
{
    if first_spoiled(symbols) == Some(0) || count_spoiled(symbols) > 1 {
        return Err(Refusal::Spoiled);
    }
    Ok(())
}

fn count_spoiled(symbols: &[Symbol]) -> usize
    ensures { result ≡ count_by (λ s. not (is_clean s)) symbols.now }
{
    symbols
        .iter()
        .filter(|s| matches!(s, Symbol::Spoiled))
        .count()
}

/// Whether every clean symbol is 00.
fn is_blank(symbols: &[Symbol]) -> bool
    ensures { result ≡ blank symbols.now }
{
    symbols
        .iter()
        .all(|s| matches!(s, Symbol::Clean(0) | Symbol::Spoiled))
}
