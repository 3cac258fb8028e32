//! Reads a script from standard input, runs it, gives each honest member's replica of the ledger
//! the blocks that were handed out to it, and prints the balances. Chunks are coded on four
//! threads. The exit status is that of the answer.
#![tactic(auto)]

use cw_base::{NoGate, Sha256, StdSink, StdSource, Threads};
use hail_report::words_of;
pub use run_ledger::ledger_program;
use std::io;
use std::process::ExitCode;

fn main(rt: HostRuntime) -> ExitCode {
    let Ok(words) = words_of(&rt) else {
        return ExitCode::from(7);
    };
    let mut input = StdSource::new(rt.reader());
    let mut output = StdSink::new(io::writer(&rt));
    let exit = ledger_program::<Sha256, _, _, _, _>(
        &rt,
        rt.alloc(),
        &words,
        &mut input,
        &mut output,
        &Threads::new(4, NoGate),
    );
    ExitCode::from(exit.status())
}
