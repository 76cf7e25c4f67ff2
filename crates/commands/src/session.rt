//! The commands on a recording: each `hear` makes the line that the commands behind it work on.
ghost use Rattle.std.specs.Prelude.{◌≡◌, [], IfOk, string_bytes};
ghost use Rattle.text.specs.Words.{words_from};
ghost use Rattle.commands.specs.Syntax.{line_read};
ghost use Rattle.commands.specs.Printed.{line_text, brought, hearing_of};

use crate::bodies::bodies;
use crate::command::{Bottom, Command, Ear, Pile, Piles, Recording};
use crate::console::Console;
use crate::hearing::{blocks_reading, hearing};
use crate::parse::parse;
use crate::seal::seal;
use crate::unit_line::UnitLine;
use lines::bit_line::BitLine;
use lines::octet_line::OctetLine;
use radio::line::Line;
use standard::line::standard_reading;
use std::alloc::{AllocError, Global};
use std::io;
use text::stop::Stop;

/// Does the commands of a console, up to the end of its input; `hear` takes every pile.
pub fn serve<C: Console>(console: &mut C) -> io::Result<()> {
    serve_with(console, Piles::Trial)
}

/// As `serve`, where `hear` takes these piles. Before the first recording the line is one on which nothing was heard.
pub fn serve_with<C: Console>(console: &mut C, piles: Piles) -> io::Result<()> {
    let mut session = Session { console, piles };
    let mut next = session.commands(OctetLine::new(b""))?;
    // The turns are counted, since no call may wait without end and nothing says that an input ends.
    for _ in 0..u64::MAX {
        let Some(recording) = next else {
            break;
        };
        next = session.hear(&recording)?;
    }
    Ok(())
}

/// The commands of a console, with what `hear` takes for its pile.
#[derive(Drop)]
struct Session<'a, C: Console> {
    console: &'a mut C,
    piles: Piles,
}

impl<'a, C: Console> Session<'a, C> {
    /// Prints what a recording holds and does the commands on a line over it, up to the next recording or the end.
    // Two lines are made on the same bytes, one listed to its end: no copy can be derived for a struct with ghost fields.
    fn hear(&mut self, recording: &Recording) -> io::Result<Option<Recording>> {
        let text = hearing(self.console.heap(), recording)?;
        self.console.print(text.as_str())?;
        let bytes = recording.bytes.as_slice();
        match recording.ear {
            Ear::Piled(Bottom::Octets, pile) => self.piled(pile, OctetLine::new(bytes)),
            Ear::Piled(Bottom::Bits, pile) => self.piled(pile, BitLine::new(bytes)),
            Ear::Unit(unit) => self.commands(UnitLine::new(bytes, unit)),
        }
    }

    /// Does the commands on a line through a pile.
    fn piled<L: Line + Drop>(&mut self, pile: Pile, line: L) -> io::Result<Option<Recording>> {
        match pile {
            Pile::Plain => self.commands(line),
            Pile::Standard => self.commands(standard_reading(line)),
            Pile::Blocks => self.commands(blocks_reading(line)),
        }
    }

    /// Does the commands up to the next recording, which it hands back, or to the end of the input.
    fn commands<L: Line + Drop>(&mut self, mut line: L) -> io::Result<Option<Recording>> {
        let heap = self.console.heap();
        // Counted as in `serve_with`: no call may wait without end, and nothing says that an input ends.
        for _ in 0..u64::MAX {
            let Some(text) = self.console.read()? else {
                return Ok(None);
            };
            let (out, recording) = answer(heap, self.piles, text.as_slice(), &mut line)?;
            self.console.print(out.as_str())?;
            if recording.is_some() {
                return Ok(recording);
            }
        }
        Ok(None)
    }
}

/// What is printed for one line of input, nothing for a blank line and for a comment, and the recording that it brought.
/// The line stands by for commands that read from it; there is none yet.
fn answer<L: Line>(
    heap: Global,
    piles: Piles,
    text: &[u8],
    _line: &mut L,
) -> Result<(String, Option<Recording>), AllocError>
    ensures printed { IfOk result (λ r. string_bytes r.0 ≡ line_text (line_read piles (words_from [] text.now))) }
    ensures recorded { IfOk result (λ r. hearing_of r.1 ≡ brought (line_read piles (words_from [] text.now))) }
{
    match parse(heap, piles, text) {
        Ok(Command::Nothing) => Ok((String::new(heap), None)),
        Ok(Command::Seal(fields)) => Ok((seal(heap, &fields)?, None)),
        Ok(Command::Bodies(payload)) => Ok((bodies(heap, payload.as_slice())?, None)),
        Ok(Command::Hear(recording)) => Ok((String::new(heap), Some(recording))),
        Err(Stop::Unread(why)) => Ok((format!(in heap; "? {why}\n")?, None)),
        Err(Stop::Memory) => Err(AllocError),
    }
}
