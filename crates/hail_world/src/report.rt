//! What is reported of a run, with the nodes that it leaves.

ghost use Rattle.std.specs.Prelude.{◌≡◌, IfOk};
ghost use Rattle.hail_report.specs.Text as spec;
ghost use Rattle.hail_world.specs.Reports.{shown_report};

use crate::live_node::MemoryNode;
use cw_base::{Digest32, Hasher, Items, NoMemory};
use cw_types::ChainBlock;
use hail_report::{Acked, Entry, text_of_parts};
use hail_script::Script;
use node::Way;
use std::alloc::Global;

/// A run: what each start and each line gave, where each honest member stands at the end, the bytes
/// of their disks, their nodes as the run left them, none for a stopped one, and the chain.
#[derive(Drop)]
pub struct Report<H: Hasher<Digest = Digest32>, W: Way> {
    /// What the start of each honest member gave, by number.
    pub opening: Items<Entry>,
    /// What each line gave, in order.
    pub steps: Items<Entry>,
    /// Where each honest member stands, by number.
    pub acked: Items<Acked>,
    /// The bytes of each honest member's disk, by number.
    pub disks: Items<Items<u8>>,
    /// The node of each honest member, by number; none for one that is stopped.
    pub nodes: Items<Option<MemoryNode<H, W>>>,
    /// The chain, from genesis up.
    pub chain: Items<ChainBlock>,
}

/// A script that was run, and the report of its run.
#[derive(Drop)]
pub struct Ran<H: Hasher<Digest = Digest32>, W: Way> {
    /// The script.
    pub script: Script,
    /// The report of its run.
    pub report: Report<H, W>,
}

/// The whole text of a report, line by line: what each start gave, what each line gave, where each
/// member stands, the chain, and the number of lines. docs/FORMATS.md has each line's form.
pub fn report_text<H: Hasher<Digest = Digest32>, W: Way>(
    alloc: Global,
    report: &Report<H, W>,
) -> Result<Vec<u8>, NoMemory>
    ensures { IfOk result
        (λ text. text.items ≡ spec.report_text H.digest_of (shown_report report.now)) }
{
    text_of_parts::<H>(
        alloc,
        report.opening.as_slice(),
        report.steps.as_slice(),
        report.acked.as_slice(),
        report.chain.as_slice(),
    )
}
