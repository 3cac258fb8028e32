//! What is told of a run: entries and the messages in them, the text of a report, and how a program
//! ends that writes one. Nothing here holds a node.
#![tactic(auto)]

mod entry;
mod exit;
mod laws;
mod pool;
mod reading;
mod report;
mod storm;
mod text;
mod votes;
mod words;

pub use entry::{enter_done, enter_sent};
pub use exit::{Early, Exit, early_of, end_early, finish};
pub use laws::{opening_laws, storm_laws};
pub use pool::Pool;
pub use reading::{Reading, read_script, write_all};
pub use report::{Acked, Entry, Sent};
pub use storm::{storm_script, summary_of_parts};
pub use text::{clash_text, error_text, text_of_parts};
pub use words::words_of;
