//! The cluster rules, as definitions, and the laws that hold of every cluster that follows them.
//!
//! The definitions stand in specs/: what a member accepts, holds, owes, notes, sends and hands out,
//! what a run of a cluster is, and what a chain is. The laws are functions with an empty body, so
//! that they can't go unproved.
#![tactic(auto)]

mod laws;
mod travel;

pub use laws::{
    bound_laws, chain_laws, clash_laws, cluster_laws, coding_laws, epoch_laws, line_laws,
    member_laws, one_chain, owed_laws, report_laws, single_laws, store_laws, uncut_laws,
};
pub use travel::Travel;
