//! wln: reads commands from standard input, one to a line, and prints what was done.
#![tactic(auto)]

use commands::terminal::Terminal;
use commands::{Piles, serve_with};
use std::io;

fn main(rt: HostRuntime) -> io::Result<()> {
    let mut terminal = Terminal::new(rt.alloc(), rt.stdin(), rt.stdout())?;
    serve_with(&mut terminal, Piles::Usual)?;
    terminal.flush()
}
