//! figures: worked figures that are proved from the definitions, and a transcript of commands with the answers that
//! another coder gave, held against the library.
#![tactic(auto)]

mod checker;
mod recorded;
mod sent;
mod table;
mod tally;

use crate::checker::Checker;
use crate::recorded::recorded_run;
use crate::sent::sent_and_read;
use crate::table::table_holds;
use commands::serve;
use std::io;

/// What the first three calls promise holds where this program is built; the transcript is held against the library here.
fn main(rt: HostRuntime) -> io::Result<()> {
    table_holds();
    let _ = recorded_run(rt.alloc());
    let _ = sent_and_read(vec![in rt.alloc(); 0; 29]?);
    let mut checker = Checker::new(&rt)?;
    serve(&mut checker)?;
    checker.report()
}
