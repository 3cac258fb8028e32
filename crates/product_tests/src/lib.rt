//! Tests of the ledger, the light client and the archive over runs of scripts: what each program
//! tells of its words and its script, what it hands back, and what fails. There is nothing here but
//! tests.
#![tactic(auto)]

#[cfg(test)]
mod back_tests;
#[cfg(test)]
mod program;
#[cfg(test)]
mod runs;
#[cfg(test)]
mod streams;
#[cfg(test)]
mod table_tests;
#[cfg(test)]
mod tables;
