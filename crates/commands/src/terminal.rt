ghost use Rattle.std.specs.Prelude.{IfOk, OnOk};
ghost use Rattle.std.specs.Io.KnownBytes.{Appends, Keeps};
ghost use Rattle.commands.specs.Terminals.{printed};

use crate::console::Console;
use std::alloc::Global;
use std::io;
use std::io::{BufRead, BufReader, BufWriter, Read, Split, Write};

/// An input, line by line, and an output.
#[derive(Drop)]
pub struct Terminal<R: Read + Drop, W: Write + Drop> {
    heap: Global,
    lines: Split<BufReader<R>>,
    out: BufWriter<W>,
}

impl<R: Read + Drop, W: Write + Drop> Terminal<R, W> {
    /// Nothing is printed yet.
    pub fn new(heap: Global, input: R, output: W) -> io::Result<Terminal<R, W>>
        ensures { IfOk result (λ t. Keeps (W.contents output) (printed W.contents t)) }
    {
        Ok(Terminal {
            heap,
            lines: BufReader::new(heap, input)?.split(heap, b'\n'),
            out: BufWriter::new(heap, output)?,
        })
    }

    /// Prints bytes as they are.
    pub fn write(&mut self, bytes: &[u8]) -> io::Result<()>
        ensures { OnOk result (Appends (printed W.contents self.old) (printed W.contents self.new) bytes.now) }
    {
        self.out.write_all(bytes)
    }

    /// Hands on what waits to be written; nothing else is printed.
    pub fn flush(&mut self) -> io::Result<()>
        ensures { Keeps (printed W.contents self.old) (printed W.contents self.new) }
    {
        self.out.flush()
    }
}

impl<R: Read + Drop, W: Write + Drop> Console for Terminal<R, W> {
    fn heap(&self) -> Global {
        self.heap
    }

    fn read(&mut self) -> io::Result<Option<Vec<u8>>> {
        match self.lines.next() {
            // a line goes straight on: `transpose` copies the room that an error would take, too
            Some(Ok(line)) => Ok(Some(line)),
            rest => rest.transpose(),
        }
    }

    fn print(&mut self, text: &str) -> io::Result<()>
        ensures { OnOk result (Appends (printed W.contents self.old) (printed W.contents self.new) text.now) }
    {
        self.write(text.as_bytes())
    }
}
