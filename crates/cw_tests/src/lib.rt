//! Tests of the public calls of the crates below, one module a crate.
#![tactic(auto)]

#[cfg(test)]
mod archive_tests;
#[cfg(test)]
mod disk_tests;
#[cfg(test)]
mod ledger_tests;
#[cfg(test)]
mod light_tests;
#[cfg(test)]
mod payload_tests;
#[cfg(test)]
mod shards_tests;
#[cfg(test)]
mod shown_tests;
#[cfg(test)]
mod tables;
#[cfg(test)]
mod types_tests;
#[cfg(test)]
mod voter_tests;
