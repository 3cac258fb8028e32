//! Tests of what a member's process and its host say to each other: how lines are read, what each
//! asks for, why lines are refused, and the lines of answers. There is nothing here but tests.
#![tactic(auto)]

#[cfg(test)]
mod answer_tests;
#[cfg(test)]
mod input_tests;
#[cfg(test)]
mod line_tests;
#[cfg(test)]
mod session_tests;
