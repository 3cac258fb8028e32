//! Tests of the crates of the cluster over what they offer to their users, in one crate above all
//! of them, so that each crate below is proved once. There is nothing here but tests.
#![tactic(auto)]

#[cfg(test)]
mod damage_tests;
#[cfg(test)]
mod disks;
#[cfg(test)]
mod mailbox_tests;
#[cfg(test)]
mod marshal_tests;
#[cfg(test)]
mod node_tests;
#[cfg(test)]
mod sessions;
#[cfg(test)]
mod tables;
