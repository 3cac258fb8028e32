//! A member whose header is known, until it starts.

ghost use Rattle.std.specs.Prelude.{◌≡◌, ◌++◌, ◌<◌, ◌≤◌, Err, IfOk, IsErrOf, [], string_bytes, ℕ};
ghost use Rattle.marshal.specs.Frames.{read_frames};
ghost use Rattle.member_session.specs.Told.{Begins};
ghost use Rattle.node_disk.specs.Memory.{memory_state};
ghost use Rattle.member_session.specs.Talk as talk;

use crate::running::{Hosted, Running};
use crate::session::{Session, done, refused};
use cw_base::{Digest32, Hasher, Items, NoMemory, Strategy, put_bytes};
use cw_types::{AcceptAll, Committees, StepOut};
use member_lines::{HostLine, Refusal};
use node::{Member, Way};
use node_disk::{Disk, HostDisk, MemoryDisk, StoreError};
use std::alloc::Global;
use std::marker::Model;
use std::thread::Threads;

/// The member's number, the committees, the backlog, and what the file holds. The number is that of
/// a member, and the backlog is at least 1.
#[derive(Drop)]
pub struct Opening {
    id: u16,
    committees: Committees,
    backlog: u64,
    file: Vec<u8>,
}

impl Model for Opening {
    ghost use Rattle.std.specs.Prelude.{◌<◌, ◌≤◌};
    ghost use Rattle.member_session.specs.Serving.{Prepared};

    ghost Value = { Prepared };

    ghost view = { λ o. record {
      id = o.id;
      epochs = o.committees;
      backlog = o.backlog;
      file = o.file.items;
    } };

    ghost invariant = { λ o. (o.id < o.committees.total) × (1 ≤ o.backlog) };
}

impl Opening {
    /// An empty file.
    pub(crate) fn new(alloc: Global, id: u16, committees: Committees, backlog: u64) -> Opening
        requires member { id < committees.total }
        requires some { 1 ≤ backlog }
        ensures { result ≡ record {
          id = id;
          epochs = committees;
          backlog = backlog;
          file = [];
        } }
    {
        Opening {
            id,
            committees,
            backlog,
            file: Vec::new(alloc),
        }
    }

    /// Takes a line that isn't one of the header.
    pub(crate) fn take<H: Hasher<Digest = Digest32>, W: Way, R: Threads + Sync, S: Strategy>(
        self,
        rt: &R,
        alloc: Global,
        asked: &HostLine,
        strategy: &S,
        out: &mut String,
    ) -> Result<Session<Running<H, W>>, NoMemory>
        ensures { IfOk result
            (λ left. talk.Answers (talk.answered_open H.digest_of W.travel self asked.now)
            (string_bytes out.old) (string_bytes out.new) left) }
    {
        match asked {
            HostLine::Disk(bytes) => {
                let longer = self.holding(bytes.as_slice())?;
                done(Session::Opening(longer), out)
            }
            HostLine::Start => self.start(rt, alloc, strategy, out),
            _ => refused(Session::Opening(self), out, &Refusal::TooEarly),
        }
    }

    // These bytes behind those of the file.
    fn holding(mut self, bytes: &[u8]) -> Result<Opening, NoMemory>
        ensures { IfOk result
            (λ longer. longer ≡ record self { file = self.file ++ bytes.now }) }
    {
        put_bytes(&mut self.file, bytes)?;
        Ok(self)
    }

    // Starts the member on its file.
    fn start<H: Hasher<Digest = Digest32>, W: Way, R: Threads + Sync, S: Strategy>(
        self,
        rt: &R,
        alloc: Global,
        strategy: &S,
        out: &mut String,
    ) -> Result<Session<Running<H, W>>, NoMemory>
        ensures { IfOk result
            (λ left. talk.Answers (talk.answered_open H.digest_of W.travel self HostLine.Start)
            (string_bytes out.old) (string_bytes out.new) left) }
    {
        match self.begun::<H, W, R, S>(rt, alloc, strategy) {
            Ok((member, step)) => {
                let running = Running::started(alloc, self.into_committees(), member, &step, out);
                drop(step);
                done(Session::Running(running?), out)
            }
            Err(StoreError::Foreign(place)) => {
                refused(Session::Opening(self), out, &Refusal::Foreign(place))
            }
            Err(_) => Err(NoMemory),
        }
    }

    // The member that starts on the file, and what its start gave.
    fn begun<H: Hasher<Digest = Digest32>, W: Way, R: Threads + Sync, S: Strategy>(
        &self,
        rt: &R,
        alloc: Global,
        strategy: &S,
    ) -> Result<(Hosted<H, W>, StepOut), StoreError>
        ensures begins { IfOk result (λ r. Begins H.digest_of W.travel self.now r.0 r.1) }
        ensures foreign { (place : ℕ) → IsErrOf result (StoreError.Foreign place)
            → read_frames self.now.file ≡ Err place }
    {
        let Ok(all) = self.committees.copy(alloc) else {
            return Err(StoreError::NoMemory);
        };
        let Ok(disk) = disk_of(alloc, &self.file) else {
            return Err(StoreError::NoMemory);
        };
        match Member::start(
            rt,
            alloc,
            self.id,
            all,
            self.backlog,
            disk,
            AcceptAll,
            strategy,
        ) {
            Ok(begun) => Ok(begun),
            Err((_, error)) => Err(error),
        }
    }

    // The committees of the header.
    fn into_committees(self) -> Committees
        ensures { result ≡ self.epochs }
    {
        self.committees
    }
}

// A disk for a host, that holds these bytes.
fn disk_of(alloc: Global, file: &[u8]) -> Result<HostDisk<MemoryDisk>, NoMemory>
    ensures { IfOk result (λ disk. (disk.waiting ≡ [])
        × ((memory_state disk.inner).now.seen ≡ file.now)) }
{
    let mut inner = MemoryDisk::new(alloc, Vec::new(alloc));
    match inner.write_at(0, file) {
        Ok(()) => Ok(HostDisk::new(alloc, inner.reopen())),
        Err(_) => Err(NoMemory),
    }
}
