//! The ledger over a run: from a script's bytes to what each honest member's replica came to. It is
//! a library, so that others than the program `hail_ledger` can call it.
#![tactic(auto)]

mod giving;
mod program;
mod text;

pub use program::ledger_program;
