//! Reads a script from standard input, runs it with blocks that travel whole, and prints the
//! report. There are no words. The exit status is that of the answer.
#![tactic(auto)]

use cw_base::{NoGate, Sha256, StdSink, StdSource, Threads};
use hail_report::words_of;
use std::io;
use std::process::ExitCode;
pub use whole_world::whole_program;

fn main(rt: HostRuntime) -> ExitCode {
    let Ok(words) = words_of(&rt) else {
        return ExitCode::from(7);
    };
    let mut input = StdSource::new(rt.reader());
    let mut output = StdSink::new(io::writer(&rt));
    let exit = whole_program::<Sha256, _, _, _, _>(
        &rt,
        rt.alloc(),
        &words,
        &mut input,
        &mut output,
        &Threads::new(4, NoGate),
    );
    ExitCode::from(exit.status())
}
