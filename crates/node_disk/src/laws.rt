//! What a stop leaves of an append over a disk in memory, what a read and crashes give of any disk,
//! and what is known of a log at rest and of a disk that is calm.

ghost use Rattle.std.specs.Prelude.{◌≡◌, ℕ, ◌<◌, ◌≤◌, ◌^◌, ◌++◌, [], ◌∷◌, List, length, Bool, true};
ghost use Rattle.node_disk.specs.Images.{Moment, IsImage};
ghost use Rattle.node_disk.specs.Disk.{DiskState, DeviceCall, Wrote, Synced, LeftSince, LeavesOnly};
ghost use Rattle.node_disk.specs.Disk.{HasFailedToWrite, HasFailedToSync};
ghost use Rattle.node_disk.specs.Frames.{Finds, FindsWithOrWithout, all_short, blocks};
ghost use Rattle.node_disk.specs.Log.{HasSettled, LogState, HasAppended, WasCutShort};
ghost use Rattle.node_disk.specs.Log.{calls_of_append, with_frame};
ghost use Rattle.node_disk.specs.Made.{HasMade, FindsSome, calls_of_group};
ghost use Rattle.node_disk.specs.Memory.{MemoryState, memory_state, is_calm, Continues};
ghost use Rattle.node_disk.specs.Cut.{IsArmed, kept_frames};

use crate::Disk;

/// A law, of a log over a disk in memory whose one fault to come is a stop at a device call from
/// now. Where the disk cuts an append short, that call is one of its four, and its frame is found
/// exactly where the call is the third or the fourth, and the cut is at least 1 or the fill is 1.
/// Where an append of a frame that isn't empty succeeds, the stop stands behind its four calls.
pub fn law_of_a_stop()
    ensures cut_short { (old new : LogState MemoryState) (frame : List ℕ) (call cut fill : ℕ)
        → IsArmed call cut fill old.disk → WasCutShort memory_state Continues frame old new
        → (call ≤ 4)
        × Finds (kept_frames call cut fill old.frames frame) (memory_state new.disk).now.seen }
    ensures whole { (old new : LogState MemoryState) (frame : List ℕ) (call cut fill : ℕ)
        → IsArmed call cut fill old.disk → HasAppended memory_state Continues frame old new
        → 0 < length frame
        → (4 < call) × Finds (old.frames ++ frame ∷ []) (memory_state new.disk).now.seen }
{}

/// A law. What a read gives of a disk is itself one of the images that a crash now may leave, so
/// what holds of each image holds of a disk that is started on again with no crash.
pub fn law_of_reads<D: Disk>()
    ensures { (disk : D) → IsImage (D.state disk).now (D.state disk).now.seen }
{}

/// A law, of a test of images. Where a crash at any moment of a run of calls leaves only images
/// that pass, and a crash at any moment of the next run too, the two are one such run: each image
/// that a crash at some moment since the first began might have left passes.
pub fn law_of_moments()
    ensures composed { (old mid new : DiskState) (passes : List ℕ → Bool)
        → LeavesOnly old mid (λ image. passes image ≡ true)
        → LeavesOnly mid new (λ image. passes image ≡ true)
        → LeavesOnly old new (λ image. passes image ≡ true) }
    ensures left_since { (old mid new : DiskState) (passes : List ℕ → Bool)
        → LeavesOnly old mid (λ image. passes image ≡ true)
        → LeavesOnly mid new (λ image. passes image ≡ true)
        → (image : List ℕ) → LeftSince new (length old.past) image → passes image ≡ true }
{}

/// A law, of a log at rest. A start finds its frames in what a read gives and in each image that a
/// crash may leave, and as long as nothing is done to the disk no other image can be left.
pub fn law_of_rest()
    ensures seen { (frames : List (List ℕ)) (gate : ℕ) (moment : Moment)
        → HasSettled frames gate moment → Finds frames moment.seen }
    ensures images { (frames : List (List ℕ)) (gate : ℕ) (moment : Moment)
        → HasSettled frames gate moment → (image : List ℕ) → IsImage moment image
        → Finds frames image }
    ensures stays { (frames : List (List ℕ)) (frame : List ℕ) (gate : ℕ) (disk : DiskState)
        → HasSettled frames gate disk.now → LeavesOnly disk disk (FindsWithOrWithout frames frame) }
{}

/// A law. A calm disk stays calm, and one in memory cuts no append of a log short.
pub fn law_of_calm<D: Disk>()
    ensures stays { (old new : D) → D.continues old new → D.calm old ≡ true → D.calm new ≡ true }
    ensures memory_stays { (old new : MemoryState) → Continues old new → is_calm old ≡ true
        → is_calm new ≡ true }
    ensures whole { (old new : LogState MemoryState) (frame : List ℕ)
        → is_calm old.disk ≡ true → WasCutShort memory_state Continues frame old new → ⊥ }
{}

/// A law, of a disk and of another one, as a file that a host keeps. Where both stood at the same
/// moment, and the same device calls are made on both in the same order, they stand at the same
/// moment again; and whenever the other one is stopped, or fails, each image that a crash may have
/// left of it since is one that a crash may have left of the first.
pub fn law_of_files()
    ensures same { (calls : List DeviceCall) (old new file written : DiskState)
        → HasMade calls old new → HasMade calls file written → file.now ≡ old.now
        → written.now ≡ new.now }
    ensures stopped { (did rest : List DeviceCall) (old new file stopped : DiskState)
        → HasMade (did ++ rest) old new → HasMade did file stopped → file.now ≡ old.now
        → (image : List ℕ) → LeftSince stopped (length file.past) image
        → LeftSince new (length old.past) image }
    ensures write_failed { (did rest : List DeviceCall) (place : ℕ) (bytes : List ℕ)
        (old new file stopped broken : DiskState)
        → HasMade (did ++ Wrote place bytes true ∷ rest) old new → HasMade did file stopped
        → file.now ≡ old.now → place ≤ length stopped.now.seen
        → HasFailedToWrite place bytes stopped broken
        → (image : List ℕ) → LeftSince broken (length file.past) image
        → LeftSince new (length old.past) image }
    ensures sync_failed { (did rest : List DeviceCall) (old new file stopped broken : DiskState)
        → HasMade (did ++ Synced true ∷ rest) old new → HasMade did file stopped
        → file.now ≡ old.now → HasFailedToSync stopped broken
        → (image : List ℕ) → LeftSince broken (length file.past) image
        → LeftSince new (length old.past) image }
{}

/// A law, of a file at rest on which the device calls of an append are made: a crash at any moment
/// of them leaves its frames, with the new one whole or without, and behind them it is at rest with
/// the new one. So a host that makes these calls needs no disk of this crate.
pub fn law_of_appends()
    ensures any_moment { (frames : List (List ℕ)) (frame : List ℕ) (gate : ℕ)
        (old new : DiskState)
        → HasSettled frames gate old.now → length frame < 2 ^ 64
        → HasMade (calls_of_append gate frame) old new
        → LeavesOnly old new (FindsWithOrWithout frames frame) }
    ensures settled { (frames : List (List ℕ)) (frame : List ℕ) (gate : ℕ) (old new : DiskState)
        → HasSettled frames gate old.now → length frame < 2 ^ 64
        → HasMade (calls_of_append gate frame) old new
        → HasSettled (with_frame frames frame) (length (blocks (with_frame frames frame)))
        new.now }
{}

/// A law, of a file at rest on which the device calls of several appends are made, all first writes
/// before a sync and all second ones before another: a crash at any moment of them leaves its
/// frames, and of the new ones some, from the first on; behind them it is at rest with all. A host
/// that takes the calls of several answers together saves syncs so.
pub fn law_of_groups()
    ensures any_moment { (frames more : List (List ℕ)) (gate : ℕ) (old new : DiskState)
        → HasSettled frames gate old.now → all_short more ≡ true
        → HasMade (calls_of_group gate more) old new
        → LeavesOnly old new (FindsSome frames more) }
    ensures settled { (frames more : List (List ℕ)) (gate : ℕ) (old new : DiskState)
        → HasSettled frames gate old.now → all_short more ≡ true
        → HasMade (calls_of_group gate more) old new
        → HasSettled (frames ++ more) (length (blocks (frames ++ more))) new.now }
{}
