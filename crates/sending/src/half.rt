ghost use Rattle.std.specs.Prelude.{◌≡◌, ◌+◌, ◌<◌, [], ◌∷◌, ◌++◌, length, take};
ghost use Rattle.radio.specs.Outlets.{answer, put_refusal, Leaves, Put};
ghost use Rattle.sending.specs.Outgoing.{over_outlet, outgoing, outgoing_sound, below_of, SendsCoding};

use crate::Sending;
use arrayvec::ArrayVec;
use coding::Coding;
use coding::group::filled_up;
use radio::outlet::Outlet;
use radio::turn::Turn;
use radio::write::put_all;
use refusal::Refusal;

impl<C: Coding, O: Outlet> Sending<C, O> {
    /// The sending half of the layer of `coding` over `below`, with nothing held back.
    pub fn new(coding: C, below: O) -> Self
        ensures means { outgoing C.Coding.grouping O.Outlet.state result ≡ over_outlet C.Coding.grouping [] (O.Outlet.state below) }
        ensures below { below_of result ≡ below }
    {
        Sending {
            below,
            coding,
            held: ArrayVec::new(),
        }
    }

    /// Hands back the outlet below.
    pub fn into_below(self) -> O
    where
        C: Drop,
        ensures { result ≡ below_of self }
    {
        let Sending {
            below,
            coding: _coding,
            held: _,
        } = self;
        below
    }
}

/// These octets and one more behind them, at the start of an array of 8.
#[tactic(auto, using(crate::proofs::Outgoing::one_behind))]
fn with_octet(others: &[u8], octet: u8) -> [u8; 8]
    requires { length others.now < 8 }
    ensures { take (length others.now + 1) result ≡ others.now ++ octet ∷ [] }
{
    filled_up(others, octet)
}

/// Puts the group at the start of `group` below in its code.
fn put_group<C: Coding, O: Outlet>(
    coding: &C,
    below: &mut O,
    group: &[u8; 8],
) -> Result<(), Refusal>
    ensures answers { result ≡ answer (put_refusal C.Coding.grouping.coded (O.Outlet.state below.old).turn) }
    ensures leaves { Leaves (Put (C.Coding.grouping.code (take C.Coding.grouping.plain group.now))) O.Outlet.state result below.old below.new }
{
    let code = coding.encode(group);
    put_all(below, &code[..coding.coded()])
}

impl<C: Coding, O: Outlet> Outlet for Sending<C, O> {
    ghost state = { outgoing C.Coding.grouping O.Outlet.state };

    ghost sound = { outgoing_sound C.Coding.grouping O.Outlet.state O.Outlet.sound };

    fn begin(&mut self, preamble: u16, count: usize) -> Result<(), Refusal> {
        self.check_form(preamble, count)?;
        let below = count / self.coding.plain() * self.coding.coded();
        if below > 65534 {
            // with the preamble it passes 65,536, the most that any space is
            return Err(Refusal::Space);
        }
        self.below.begin(preamble, below)?;
        self.held.clear();
        Ok(())
    }

    fn put(&mut self, octet: u8) -> Result<(), Refusal> {
        let Turn::Owing(1..) = self.turn_of() else {
            return Err(Refusal::Turn);
        };
        let others = self.coding.plain() - 1;
        if self.held.len() < others {
            self.held.push(octet);
            return Ok(());
        }
        // all the others of its group are held back: their number, which the compiler knows, spares a loop
        let group = with_octet(&self.held[..others], octet);
        self.held = ArrayVec::new();
        put_group(&self.coding, &mut self.below, &group)
    }

    fn end(&mut self) -> Result<(), Refusal> {
        match self.turn_of() {
            Turn::Owing(0) => self.below.end(),
            _ => Err(Refusal::Turn),
        }
    }

    fn turn_of(&self) -> Turn {
        let turn = self.below.turn_of();
        let Turn::Owing(n) = turn else {
            return turn;
        };
        let owed = usize::from(n);
        let coded = self.coding.coded();
        if owed % coded != 0 {
            return Turn::Stuck;
        }
        let above = owed / coded * self.coding.plain();
        Turn::Owing(above.saturating_sub(self.held.len()) as u16)
    }

    fn space_of(&self) -> u32 {
        self.below.space_of()
    }

    fn unit_of(&self) -> u16 {
        self.coding.unit_over(self.below.unit_of())
    }
}

/// That what goes through a half is written below in its coding.
pub fn sending_holds()
    ensures { SendsCoding }
{}
