//! The disk of a node as a trait, a disk in memory that can stop at any device call and tear what
//! was written, and logs of records and of frames that a crash leaves whole.
//!
//! What a disk promises stands in `specs/Images.antt` and `specs/Disk.antt`, the log's format in
//! `specs/Frames.antt`, and what a stop leaves of an append in `specs/Cut.antt`.
#![tactic(auto)]

mod disk;
mod effects;
mod host;
mod laws;
mod log;
mod memory;
mod reading;
mod record;
mod record_log;
mod records;

pub use disk::{Disk, DiskError};
pub use host::{HostCall, HostDisk};
pub use laws::{
    law_of_a_stop, law_of_appends, law_of_calm, law_of_files, law_of_groups, law_of_moments,
    law_of_reads, law_of_rest,
};
pub use log::{Log, StoreError};
pub use memory::MemoryDisk;
pub use reading::{place_behind, read_log};
pub use record::{Outcome, Stop};
pub use record_log::RecordLog;
pub use records::{Records, read_records};
