//! Tests of scripts and of the program over text tables: worked runs, what is refused, what fails,
//! and hostile use. There is nothing here but tests.
#![tactic(auto)]

#[cfg(test)]
mod cases;
#[cfg(test)]
mod fuzzed_tests;
#[cfg(test)]
mod lanes_tests;
#[cfg(test)]
mod nodes_tests;
#[cfg(test)]
mod outside_tests;
#[cfg(test)]
mod runs;
#[cfg(test)]
mod script_tests;
#[cfg(test)]
mod stopped_tests;
#[cfg(test)]
mod tables;
#[cfg(test)]
mod whole_tests;
#[cfg(test)]
mod worked_tests;
