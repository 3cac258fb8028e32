//! The cluster that a script runs, whose blocks travel in chunks.

ghost use Rattle.std.specs.Prelude.{IfOk, IfErr};
ghost use Rattle.hail_world.specs.OneChain.{IsOneChain};
ghost use Rattle.hailstorm.specs.Reports.{IsCause, IsReport};

use cw_base::{Digest32, Hasher, Strategy};
use hail_script::RunError;
use hail_world::run_text;
use node::Chunked;
use std::alloc::Global;
use std::thread::Threads;

/// A run: what each start and each line gave, where each honest member stands at the end, the bytes
/// of their disks, their nodes as the run left them, none for a stopped one, and the chain.
pub type Report<H> = hail_world::Report<H, Chunked>;

/// A cluster of members.
///
/// ```text
/// let script = b"cluster 4 8\ntimeout 1 1\n";
/// let report = World::run::<Sha256, _, _>(&rt, alloc, script, &Sequential)?;
/// assert_eq!(rt; report.chain.len(), 1); // genesis, which is handed out at each start
/// ```
pub struct World;

impl World {
    /// Runs a script: each honest member starts, by number, and each line has its turn, until a
    /// clash.
    pub fn run<H: Hasher<Digest = Digest32>, R: Threads + Sync, S: Strategy>(
        rt: &R,
        alloc: Global,
        script: &[u8],
        strategy: &S,
    ) -> Result<Report<H>, RunError>
        // All that its honest members hand out lies on one chain.
        ensures one_chain { IfOk result (λ report. IsOneChain H.digest_of report) }

        // This is the report of the script's run.
        ensures ok { IfOk result (λ report. IsReport H.digest_of script.now report) }
        ensures err { IfErr result (λ e. IsCause H.digest_of script.now e) }
    {
        match run_text::<H, Chunked, R, S>(rt, alloc, script, strategy) {
            Ok(ran) => Ok(ran.report),
            Err(error) => Err(error),
        }
    }
}
