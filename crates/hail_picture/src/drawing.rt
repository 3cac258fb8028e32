//! The picture of a run, from its script and its report.

ghost use Rattle.std.specs.Prelude.{◌≡◌, IfOk, map};
ghost use Rattle.cw_types.specs.Encoding.{block_bytes};
ghost use Rattle.hail_world.specs.Reports.{shown_report};
ghost use Rattle.run_picture.specs.Told as told;
ghost use Rattle.hail_picture.specs.Drawing as spec;

use cw_base::{Digest32, Hasher, Items, NoMemory};
use cw_types::{ChainBlock, Handed};
use hail_report::{Entry, Sent};
use hail_script::EventLine;
use hail_world::Ran;
use node::Chunked;
use run_picture::{Said, Step, picture, says_of};
use std::alloc::Global;

/// The picture of a run.
pub(crate) fn picture_of<H: Hasher<Digest = Digest32>>(
    alloc: Global,
    ran: &Ran<H, Chunked>,
) -> Result<Vec<u8>, NoMemory>
    ensures { IfOk result
        (λ text. text.items
        ≡ spec.picture_of_report H.digest_of ran.now.script (shown_report ran.now.report)) }
{
    let faulty = ran.script.faulty(alloc)?;
    let steps = steps_of(alloc, ran.script.lines(), ran.report.steps.as_slice())?;
    let chain = digests_of::<H>(alloc, ran.report.chain.as_slice())?;
    picture(alloc, &faulty, &steps, &chain)
}

// The lines of a script, each with its entry.
fn steps_of<'a>(
    alloc: Global,
    lines: &'a [EventLine],
    entries: &[Entry],
) -> Result<Vec<Step<'a>>, NoMemory>
    ensures { IfOk result (λ steps. steps.items ≡ spec.steps_of lines.now entries.now) }
{
    let mut steps = Vec::new(alloc);
    let mut rest = entries;
    for line in lines {
        let Some((entry, more)) = rest.split_first() else {
            return Ok(steps);
        };
        let step = step_of(alloc, line, entry)?;
        steps.push(step)?;
        rest = more;
    }
    Ok(steps)
}

// What a line did, by its entry.
fn step_of<'a>(alloc: Global, line: &'a EventLine, entry: &Entry) -> Result<Step<'a>, NoMemory>
    ensures { IfOk result (λ step. step ≡ spec.step_of line.now entry.now) }
{
    let sent = said_all(alloc, entry.sent.as_slice())?;
    let handed = heights_of(alloc, entry.handed.as_slice())?;
    Ok(Step {
        number: entry.line,
        line,
        found: entry.found,
        sent,
        handed,
    })
}

// What is told of messages.
fn said_all(alloc: Global, messages: &[Sent]) -> Result<Items<Said>, NoMemory>
    ensures { IfOk result (λ said. said ≡ map told.said_of messages.now) }
{
    let mut said = Items::new(alloc);
    for sent in messages {
        said.push(Said {
            to: sent.to,
            says: says_of(&sent.message),
        })?;
    }
    Ok(said)
}

// The heights that were handed out.
fn heights_of(alloc: Global, handed: &[Handed]) -> Result<Items<u64>, NoMemory>
    ensures { IfOk result (λ heights. heights ≡ map (λ h. h.height) handed.now) }
{
    let mut heights = Items::new(alloc);
    for block in handed {
        heights.push(block.height)?;
    }
    Ok(heights)
}

// The digests of blocks.
fn digests_of<H: Hasher<Digest = Digest32>>(
    alloc: Global,
    chain: &[ChainBlock],
) -> Result<Vec<Digest32>, NoMemory>
    ensures { IfOk result
        (λ digests. digests.items ≡ map (λ b. H.digest_of (block_bytes b)) chain.now) }
{
    let mut digests = Vec::new(alloc);
    for block in chain {
        digests.push(block.digest::<H>(alloc)?)?;
    }
    Ok(digests)
}
