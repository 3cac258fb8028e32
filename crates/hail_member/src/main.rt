//! One member of a cluster as a process: lines on standard input, answers on standard output. The
//! words are the member's number and, where blocks travel whole, `whole`. Chunks are coded on two
//! threads. The exit status is that of the end.
#![tactic(auto)]

use cw_base::{NoGate, Sha256, StdSink, StdSource, Threads};
use member_session::{member_program, words_of};
use std::io;
use std::process::ExitCode;

fn main(rt: HostRuntime) -> ExitCode {
    let Ok(words) = words_of(&rt) else {
        return ExitCode::from(7);
    };
    let mut input = StdSource::new(rt.reader());
    let mut output = StdSink::new(io::writer(&rt));
    let end = member_program::<Sha256, _, _, _, _>(
        &rt,
        rt.alloc(),
        &words,
        &mut input,
        &mut output,
        &Threads::new(2, NoGate),
    );
    ExitCode::from(end.status())
}
