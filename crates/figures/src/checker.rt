use crate::tally::{Halt, Tally};
use commands::console::Console;
use commands::terminal::Terminal;
use std::alloc::Global;
use std::io;
use std::io::{Stdin, Stdout};

/// A console whose input is a transcript: lines of commands, and behind them the lines that they must be answered with,
/// each behind `= `. It prints nothing while all is as expected, and stops at the first difference.
#[derive(Drop)]
pub(crate) struct Checker {
    terminal: Terminal<Stdin, Stdout>,
    tally: Tally,
}

impl Checker {
    pub(crate) fn new(rt: &HostRuntime) -> io::Result<Checker> {
        Ok(Checker {
            terminal: Terminal::new(rt.alloc(), rt.stdin(), rt.stdout())?,
            tally: Tally::new(rt.alloc()),
        })
    }

    /// Prints how many answers there were of each kind, if none is missing.
    pub(crate) fn report(&mut self) -> io::Result<()> {
        self.tally.end().or_else(|halt| self.stop(halt))?;
        let heap = self.terminal.heap();
        let mut total = 0u64;
        for (kind, count) in self.tally.counts.iter() {
            total = total.saturating_add(*count);
            let number = format!(in heap; "{count} ")?;
            self.terminal.print(number.as_str())?;
            self.terminal.write(kind.as_slice())?;
            self.terminal.print("\n")?;
        }
        let line = format!(in heap; "{total} answers, all as expected\n")?;
        self.terminal.print(line.as_str())?;
        self.terminal.flush()
    }

    /// Shows both sides of a difference, and stops.
    fn stop(&mut self, halt: Halt) -> io::Result<()> {
        let (expected, answered) = match halt {
            Halt::Difference { expected, answered } => (expected, answered),
            Halt::Memory(error) => return Err(error.into()),
        };
        self.terminal.print("expected: ")?;
        self.terminal.write(expected.as_slice())?;
        self.terminal.print("\nanswered: ")?;
        self.terminal.write(answered.as_slice())?;
        self.terminal.print("\n")?;
        self.terminal.flush()?;
        Err(io::Error::other("an answer is not the expected one"))
    }
}

impl Console for Checker {
    fn heap(&self) -> Global {
        self.terminal.heap()
    }

    /// The next line that is a command.
    fn read(&mut self) -> io::Result<Option<Vec<u8>>> {
        // The turns are counted, since no call may wait without end and nothing says that an input ends.
        for _ in 0..u64::MAX {
            let Some(line) = self.terminal.read()? else {
                return Ok(None);
            };
            let [b'=', b' ', expected @ ..] = line.as_slice() else {
                return Ok(Some(line));
            };
            self.tally.expect(expected).or_else(|halt| self.stop(halt))?;
        }
        Ok(None)
    }

    fn print(&mut self, text: &str) -> io::Result<()> {
        for line in text.lines() {
            self.tally
                .answer(line.as_bytes())
                .or_else(|halt| self.stop(halt))?;
        }
        Ok(())
    }
}
