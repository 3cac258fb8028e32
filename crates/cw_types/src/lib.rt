//! The values that a cluster speaks of: blocks and what names them, votes, messages, notes, and the
//! events and answers of a member's step; with their bytes, the numbers of a committee, and the
//! first block.
#![tactic(auto)]

mod application;
mod automaton;
mod block;
mod block_text;
mod chain;
mod commitment;
pub mod committees;
mod committing;
mod digested;
mod event;
mod feedback;
mod handoff;
pub mod laws;
mod message;
mod note;
mod numbers;
mod payload;
mod round;
mod validity;
mod vote;

pub use application::{AcceptAll, Application, Verifier};
pub use automaton::{Automaton, CertifiableAutomaton};
pub use block::{ChainBlock, Context};
pub use chain::{genesis, genesis_commitment};
pub use commitment::Commitment;
pub use committees::{Committees, leader};
pub use committing::{commit, commit_with_chunks};
pub use digested::{Block, BoundedBlock, CertifiableBlock, Digested};
pub use event::{Event, Handed, Out, StepOut, TicketOut, To};
pub use feedback::{Feedback, Monitor, Relay, Reporter};
pub use handoff::Handoff;
pub use message::Message;
pub use note::Note;
pub use numbers::{config_for, max_faults, quorum};
pub use payload::Payload;
pub use round::{Epoch, Epochable, Height, Heightable, Round, Roundable, View, Viewable};
pub use validity::is_valid;
pub use vote::{Cert, Proposal, Vote, well_formed};
