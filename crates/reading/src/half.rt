ghost use Rattle.std.specs.Prelude.{◌≡◌, ◌+◌, min, take, Some};
ghost use Rattle.refusal.specs.declared.Cause.TheVariants.{Torn};
ghost use Rattle.reading.specs.Half.{fresh};
ghost use Rattle.reading.specs.Meaning.{meaning, meaning_sound, Filled};

use crate::Reading;
use crate::gather::gather;
use arrayvec::ArrayVec;
use coding::Coding;
use radio::line::Line;
use radio::symbol::Symbol;
use refusal::{Cause, Fault, Refusal};

impl<C: Coding, L: Line> Reading<C, L> {
    /// The reading half of the layer of `coding` over `below`.
    pub fn new(coding: C, below: L) -> Self
        ensures { meaning C.Coding.grouping L.Line.heard result ≡ fresh C.Coding.grouping (L.Line.heard below) }
    {
        Reading {
            below,
            coding,
            waiting: ArrayVec::new().into_iter(),
            given: 0,
            torn: None,
        }
    }

    /// Decodes a whole group, whose symbols then wait to be taken.
    fn decode(&mut self, group: &[Symbol; 8])
        ensures { self.new ≡ record self.old { waiting = C.Coding.grouping.read (take C.Coding.grouping.coded group.now); given = min (self.old.given + C.Coding.grouping.plain) 65535 } }
    {
        let plain = self.coding.plain();
        let mut symbols = ArrayVec::from(self.coding.decode(group));
        symbols.truncate(plain);
        self.waiting = symbols.into_iter();
        self.given = self.given.saturating_add(plain as u16);
    }

    /// The fault of a torn group, which stays until the next opening.
    fn tear(&mut self) -> Fault
        ensures is { result ≡ record { cause = Torn; place = self.old.given; rise = 0 } }
        ensures stays { self.new ≡ record self.old { torn = Some result } }
    {
        let fault = Fault {
            cause: Cause::Torn,
            place: self.given,
            rise: 0,
        };
        self.torn = Some(fault);
        fault
    }

    /// With no symbol waiting, reads the next group below, if one comes.
    fn refill(&mut self) -> Result<(), Fault>
        ensures same { meaning C.Coding.grouping L.Line.heard self.new ≡ meaning C.Coding.grouping L.Line.heard self.old }
        ensures filled { Filled self.new.waiting (meaning C.Coding.grouping L.Line.heard self.old).present result }
    {
        if !self.waiting.as_slice().is_empty() {
            return Ok(());
        }
        if let Some(fault) = self.torn {
            return Err(fault);
        }
        let want = self.coding.coded();
        let mut group = [Symbol::Spoiled; 8];
        let came = gather(&mut self.below, want, &mut group)?;
        if came == 0 {
            return Ok(());
        }
        if came < want {
            return Err(self.tear());
        }
        self.decode(&group);
        Ok(())
    }
}

impl<C: Coding, L: Line> Line for Reading<C, L> {
    ghost heard = { meaning C.Coding.grouping L.Line.heard };

    ghost sound = { meaning_sound C.Coding.grouping L.Line.heard L.Line.sound };

    fn open(&mut self) -> Result<(), Refusal> {
        self.below.open()?;
        self.waiting = ArrayVec::new().into_iter();
        self.given = 0;
        self.torn = None;
        Ok(())
    }

    fn take(&mut self) -> Result<Option<Symbol>, Fault> {
        // most takes end here, and a return of its own keeps their way short
        if let Some(symbol) = self.waiting.next() {
            return Ok(Some(symbol));
        }
        self.refill()?;
        Ok(self.waiting.next())
    }

    fn unit_of(&self) -> u16 {
        self.coding.unit_over(self.below.unit_of())
    }
}
