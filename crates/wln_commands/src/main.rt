//! wln_commands: as wln, but `hear` also takes the pile `blocks`, and over octets a unit.
#![tactic(auto)]

use commands::serve;
use commands::terminal::Terminal;
use std::io;

fn main(rt: HostRuntime) -> io::Result<()> {
    let mut terminal = Terminal::new(rt.alloc(), rt.stdin(), rt.stdout())?;
    serve(&mut terminal)?;
    terminal.flush()
}
