//! Reads a script with lanes from standard input, runs each lane on a thread of its own over one
//! cluster, and prints the order in which they had their turns, and the report. The exit status is
//! that of the answer.
#![tactic(auto)]

use cw_base::{NoGate, Sequential, Sha256, StdSink, StdSource};
use hailstorm::{lanes_program, words_of};
use std::io;
use std::process::ExitCode;

fn main(rt: HostRuntime) -> ExitCode {
    let Ok(words) = words_of(&rt) else {
        return ExitCode::from(7);
    };
    let mut input = StdSource::new(rt.reader());
    let mut output = StdSink::new(io::writer(&rt));
    let exit = lanes_program::<Sha256, _, _, _, _, _>(
        &rt,
        rt.alloc(),
        &words,
        &mut input,
        &mut output,
        &Sequential,
        &NoGate,
    );
    ExitCode::from(exit.status())
}
