ghost use Rattle.std.specs.Prelude.{◌≡◌, ◌≤◌, length, take, unwrap_or};
ghost use Rattle.radio.specs.Reception.{fault_at};
ghost use Rattle.lines.specs.Recording.{unopened_over, Starts};

use crate::recorded::Recorded;
use radio::line::Line;
use radio::symbol::Symbol;
use refusal::{Cause, Fault, Refusal};
use std::marker::PhantomData;

/// How many bytes a line hears at most.
const LIMIT: usize = 65_536;

/// A line over bytes in which channel octets are recorded as `M` has it.
#[derive(Drop)]
pub struct ByteLine<'a, M: Recorded> {
    bytes: &'a [u8],
    medium: PhantomData<M>,
    /// The cell where taking stands, and where the search for the next sign begins.
    place: usize,
    /// How many symbols the present reception has given: `None` before the first opening.
    given: Option<usize>,
    /// The search has come to the end and found no sign: no cell is searched twice.
    // a flag, since no value goes with it: the present reception is taken on from `place`
    quiet: bool,
    ghost short: { length bytes.now ≤ 65536 },
    ghost within: { place ≤ length (M.Recorded.recording.cells bytes.now) },
    ghost counted: { unwrap_or given 0 ≤ place },
}

impl<'a, M: Recorded> ByteLine<'a, M> {
    ghost use Rattle.lines.specs.Meaning.{meaning};

    /// A line over the first 65,536 bytes, or over all where there are fewer.
    pub fn new(bytes: &'a [u8]) -> ByteLine<'a, M>
        ensures { meaning M.Recorded.recording result ≡ unopened_over M.Recorded.recording (take 65536 bytes.now) }
    {
        ByteLine::before_all(heard_part(bytes))
    }

    /// A line over these bytes, before the first of them.
    fn before_all(bytes: &'a [u8]) -> ByteLine<'a, M>
        requires { length bytes.now ≤ 65536 }
        ensures { meaning M.Recorded.recording result ≡ unopened_over M.Recorded.recording bytes.now }
    {
        ByteLine {
            bytes,
            medium: PhantomData,
            place: 0,
            given: None,
            quiet: false,
        }
    }
}

impl<'a, M: Recorded> Line for ByteLine<'a, M> {
    ghost use Rattle.lines.specs.Meaning.{meaning, meaning_sound};

    ghost heard = { meaning M.Recorded.recording };

    ghost sound = { meaning_sound M.Recorded.recording };

    fn open(&mut self) -> Result<(), Refusal> {
        if self.quiet {
            return Err(Refusal::Quiet);
        }
        let Some(start) = next_start::<M>(self.bytes, self.place) else {
            self.quiet = true;
            return Err(Refusal::Quiet);
        };
        self.place = start;
        self.given = Some(0);
        Ok(())
    }

    fn take(&mut self) -> Result<Option<Symbol>, Fault> {
        let Some(given) = self.given else {
            return Err(fault_at(Cause::Dry, 0));
        };
        let here = M::here(self.bytes, self.place);
        let Some(symbol) = here.map_err(|cause| fault_at(cause, given))? else {
            return Ok(None);
        };
        self.place += M::step();
        self.given = Some(given + 1);
        Ok(Some(symbol))
    }

    fn unit_of(&self) -> u16 {
        1
    }
}

/// The place where the next reception starts, if one opens at or behind a place.
// out of line: compiled into a loop that takes symbols too, the search is slower
#[inline(never)]
fn next_start<M: Recorded>(bytes: &[u8], from: usize) -> Option<usize>
    requires short { length bytes.now ≤ 65536 }
    requires within { from ≤ length (M.Recorded.recording.cells bytes.now) }
    ensures { Starts M.Recorded.recording bytes.now from result }
{
    (from..M::count(bytes))
        .step_by(M::step())
        .find_map(|place| M::behind_sign(bytes, place))
}

/// The bytes that a line hears.
fn heard_part(bytes: &[u8]) -> &[u8]
    ensures part { result.now ≡ take 65536 bytes.now }
    ensures short { length result.now ≤ 65536 }
{
    &bytes[..LIMIT.min(bytes.len())]
}

/// A fault at its maker, which had given so many symbols in the reception.
fn fault_at(cause: Cause, given: usize) -> Fault
    ensures { result ≡ fault_at cause given }
{
    Fault {
        cause,
        place: given.min(65_535) as u16,
        rise: 0,
    }
}
