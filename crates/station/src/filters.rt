ghost use Rattle.std.specs.Prelude.{◌≡◌, not};
ghost use Rattle.station.specs.Filtering.{elsewhere, muted};
ghost use Rattle.station.specs.Judging.{filtered};

use refusal::Refusal;

/// The filters of a station, all off at first.
#[derive(Clone, Copy, Default)]
pub struct Filters {
    /// Off, or the least strength that passes.
    pub strength: Option<u8>,
    /// Only what is addressed to the station or to all passes.
    pub identity: bool,
    /// For each of the types 0 to 3, whether it is muted.
    pub muted: [bool; 4],
}

/// What a read tells of the message that it hands up.
#[derive(Clone, Copy, PartialEq, Eq, Debug)]
pub struct Facts {
    // a number and no enum of the four types: `pass` takes every number, and so does `Station::mute`
    pub kind: u8,
    pub source: u16,
    /// None in a beacon.
    pub destination: Option<u16>,
    /// How many octets the payload has.
    pub length: usize,
    /// The strength that was measured.
    pub strength: u8,
}

impl Filters {
    /// Whether a message with these facts passes the filters of the station `own`, and if not, which filter keeps it back.
    pub fn pass(&self, own: u16, facts: &Facts) -> Result<(), Refusal>
        ensures { result ≡ filtered own self.now facts.now.strength facts.now.kind facts.now.destination }
    {
        if self.strength.is_some_and(|limit| facts.strength < limit) {
            return Err(Refusal::Weak);
        }
        if self.identity && !is_for(own, facts.destination) {
            return Err(Refusal::Other);
        }
        if self.is_muted(facts.kind) {
            return Err(Refusal::Muted);
        }
        Ok(())
    }

    fn is_muted(&self, kind: u8) -> bool
        ensures { result ≡ muted self.now kind }
    {
        self.muted.get(usize::from(kind)).is_some_and(|on| *on)
    }
}

/// Whether a message with this Destination is for the station `own`: its own address, or everybody's; a beacon has none.
fn is_for(own: u16, destination: Option<u16>) -> bool
    ensures { elsewhere own destination ≡ not result }
{
    destination.is_some_and(|to| to == own || to == 0xffff)
}
