//! Tests of the public calls of `cw_base` (three files), `rs_code` (`code`), `cw_tree` and
//! `cw_coding` (`coding`).
#![tactic(auto)]

#[cfg(test)]
mod base_tests;
#[cfg(test)]
mod code;
#[cfg(test)]
mod coding;
#[cfg(test)]
mod gate;
#[cfg(test)]
mod reader_tests;
#[cfg(test)]
mod standard_tests;
#[cfg(test)]
mod tables;
#[cfg(test)]
mod tree_tests;
