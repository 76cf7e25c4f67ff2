ghost use Rattle.std.specs.Prelude.{◌≡◌, ◌≤◌, min, [], ◌∷◌, None, Ok};
ghost use Rattle.radio.specs.Outlets.{State, Sound, unit, answer, out_of_form, begin_refusal, put_refusal, end_refusal, Leaves, Begun, Put, Ended};

use crate::turn::Turn;
use refusal::Refusal;

/// Where channel octets are written, message by message: begin, put each octet, end.
/// A refused call leaves the outlet as it was.
pub trait Outlet {
    ghost state: { Self → State };

    ghost sound: { (s : Self) → Sound (state s) };

    /// Begins a message of `count` octets behind a preamble of `preamble` octets, and takes the space of the whole message.
    // a number and no enum of the three lengths: every number may be asked for, and is answered
    fn begin(&mut self, preamble: u16, count: usize) -> Result<(), Refusal>
        ensures answers { result ≡ answer (begin_refusal preamble count (state self.old)) }
        ensures leaves { Leaves (Begun preamble count) state result self.old self.new };

    /// Puts the next octet of the message.
    fn put(&mut self, octet: u8) -> Result<(), Refusal>
        ensures answers { result ≡ answer (put_refusal 1 (state self.old).turn) }
        ensures leaves { Leaves (Put (octet ∷ [])) state result self.old self.new };

    /// Ends the message, once all its octets have been put.
    fn end(&mut self) -> Result<(), Refusal>
        ensures answers { result ≡ answer (end_refusal (state self.old).turn) }
        ensures leaves { Leaves Ended state result self.old self.new };

    fn turn_of(&self) -> Turn
        ensures { result ≡ (state self.now).turn };

    /// The space left, in channel octets.
    fn space_of(&self) -> u32
        ensures { result ≡ (state self.now).space };

    /// The unit, or 65,535 where it is larger.
    fn unit_of(&self) -> u16
        ensures { result ≡ min (unit (state self.now)) 65535 };

    /// Why a message can't begin, the space apart.
    #[tactic(auto, using(crate::proofs::States::sound_unit, crate::proofs::States::min_same))]
    fn check_form(&self, preamble: u16, count: usize) -> Result<(), Refusal>
        ensures answers { result ≡ answer (out_of_form preamble count (state self.now) None) }
        ensures few { result ≡ Ok tt → count ≤ 65534 }
    {
        if !matches!(preamble, 3 | 38 | 250) {
            return Err(Refusal::Argument);
        }
        let Turn::Idle = self.turn_of() else {
            return Err(Refusal::Turn);
        };
        if count > 65534 {
            return Err(Refusal::Uneven);
        }
        if count % self.unit_of() as usize != 0 {
            return Err(Refusal::Uneven);
        }
        Ok(())
    }
}
