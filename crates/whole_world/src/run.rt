//! The run of a script whose blocks travel whole.

ghost use Rattle.std.specs.Prelude.{IfOk, IfErr};
ghost use Rattle.cw_rules.specs.declared.travel.Travel.TheVariants as travel;
ghost use Rattle.hail_world.specs.OneChain.{IsOneChain};
ghost use Rattle.hail_world.specs.Reports.{IsCause, IsReport};

use cw_base::{Digest32, Hasher, Strategy};
use hail_script::RunError;
use hail_world::{Ran, run_text};
use node::Uncut;
use std::alloc::Global;
use std::thread::Threads;

/// The report of a run: what each start and each line gave, where each honest member stands at the
/// end, the bytes of their disks, their nodes as the run left them, each a
/// [`WholeNode`](whole_node::WholeNode), none for a stopped one, and the chain.
pub type Report<H> = hail_world::Report<H, Uncut>;

/// Runs a script whose header is `cluster N B`: each honest member starts, by number, and each line
/// has its turn, until a clash. Blocks travel whole, in one epoch of all members.
///
/// ```text
/// let script = b"cluster 4 8\ntimeout 1 1\n";
/// let report = whole_run::<Sha256, _, _>(&rt, alloc, script, &Sequential)?;
/// assert_eq!(rt; report.chain.len(), 1); // genesis, which is handed out at each start
/// ```
pub fn whole_run<H: Hasher<Digest = Digest32>, R: Threads + Sync, S: Strategy>(
    rt: &R,
    alloc: Global,
    script: &[u8],
    strategy: &S,
) -> Result<Report<H>, RunError>
    // All that its honest members hand out lies on one chain.
    ensures one_chain { IfOk result (λ report. IsOneChain H.digest_of report) }

    // This is the report of the script's run.
    ensures ok { IfOk result (λ report. IsReport travel.Uncut H.digest_of script.now report) }
    ensures err { IfErr result (λ e. IsCause travel.Uncut H.digest_of script.now e) }
{
    match run_text::<H, Uncut, R, S>(rt, alloc, script, strategy) {
        Ok(Ran { script: _, report }) => Ok(report),
        Err(error) => Err(error),
    }
}
