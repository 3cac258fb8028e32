//! Shards that stand in buffers of a caller's, with no tree over them.

ghost use Rattle.std.specs.Prelude.{◌≡◌, ℕ, ◌+◌, ◌*◌, ◌%◌, ◌^◌, ◌<◌, ◌≤◌, ◌⊎◌, ◌↔◌, List, [], ◌++◌};
ghost use Rattle.std.specs.Prelude.{length, map, get_or, drop, take, All, IfOk, IfErr, IsTrue};
ghost use Rattle.std.specs.Prelude.{slice_index};
ghost use Rattle.std.specs.List.{flat_map};
ghost use Rattle.cw_base.specs.Rows.{row_of};
ghost use Rattle.rs_code.specs.Plans.{IsRefusal};
ghost use Rattle.rs_code.specs.Rows.{joined, code_row};
ghost use Rattle.rs_code.specs.declared.plan.PlanError.{PlanError};
ghost use Rattle.coding_c.specs.Calls.{IsPut, AreNoConfig};
ghost use Rattle.coding_c.specs.Shards.{first_width, end_to_end, AreShards, HaveRoom, ArePut};
ghost use Rattle.coding_c.specs.Shards.{IsShardsStatus, recovery_of, rebuilt_of, AreOfCodeword};
ghost use Rattle.coding_c.specs.Shards.{plan_status};

use crate::status::{
    BAD_WIDTH, NO_CONFIG, NO_MEMORY, TOO_FEW, TOO_LONG, TOO_MANY_SHARDS, status_of_plan,
};
use cw_base::{NoMemory, put_bytes};
use rs_code::{Plan, add_recoveries_here};
use std::alloc::Global;

/// Bytes of a caller's.
#[repr(C)]
pub struct Span<'a> {
    /// The bytes, which stay as they are.
    pub bytes: &'a [u8],
}

/// Bytes of a caller's in which an answer is written.
#[repr(C)]
pub struct Room<'a> {
    /// The bytes.
    pub bytes: &'a mut [u8],
}

// The width of the first `k` shards of k + m.
pub(crate) fn width_of(k: u16, m: u16, shards: &[Span]) -> Result<usize, u32>
    ensures done { IfOk result (λ width. (1 ≤ k) × (1 ≤ m) × (k + m ≤ 65535)
        × AreShards k (map (λ s. s.bytes.now) shards.now)
        × (width ≡ first_width (map (λ s. s.bytes.now) shards.now))
        × ((k + m) * width < 2 ^ 63)) }
    ensures refused { IfErr result
        (λ code. IsShardsStatus k m (map (λ s. s.bytes.now) shards.now) code) }
    ensures some { IfErr result (λ code. 1 ≤ code) }
{
    if k == 0 || m == 0 {
        return Err(NO_CONFIG);
    }
    if u32::from(k) + u32::from(m) > 65535 {
        return Err(TOO_MANY_SHARDS);
    }
    if shards.len() < usize::from(k) {
        return Err(TOO_FEW);
    }
    let width = shards[0].bytes.len();
    if !have_width(shards, usize::from(k), width) {
        return Err(BAD_WIDTH);
    }
    if !is_short(usize::from(k) + usize::from(m), width) {
        return Err(TOO_LONG);
    }
    Ok(width)
}

// Whether the first `count` shards have this width, which is even and not zero.
fn have_width(shards: &[Span], count: usize, width: usize) -> bool
    requires enough { count ≤ length shards.now }
    ensures { IsTrue result ↔ (0 < width) × (width % 2 ≡ 0)
        × All (λ shard. length shard ≡ width) (take count (map (λ s. s.bytes.now) shards.now)) }
{
    if width == 0 || width % 2 != 0 {
        return false;
    }
    for i in 0..count {
        if shards[i].bytes.len() != width {
            return false;
        }
    }
    true
}

// Whether all indices are those of one of k + m shards.
pub(crate) fn are_below(indices: &[u16], k: u16, m: u16) -> bool
    ensures { IsTrue result ↔ All (λ i. i < k + m) indices.now }
{
    for i in 0..indices.len() {
        if u32::from(indices[i]) >= u32::from(k) + u32::from(m) {
            return false;
        }
    }
    true
}

// Whether so many shards of a width are fewer than 2^63 bytes.
pub(crate) fn is_short(count: usize, width: usize) -> bool
    ensures { IsTrue result ↔ (count * width < 2 ^ 63) }
{
    match count.checked_mul(width) {
        Some(size) => size <= isize::MAX as usize,
        None => false,
    }
}

// Whether the first `count` buffers have room for `width` bytes each.
pub(crate) fn have_room(buffers: &[Room], count: usize, width: usize) -> bool
    ensures { IsTrue result ↔ HaveRoom count width (map (λ b. b.bytes.now) buffers.now) }
{
    if buffers.len() < count {
        return false;
    }
    for i in 0..count {
        if buffers[i].bytes.len() < width {
            return false;
        }
    }
    true
}

// The rows of a codeword that begins with the first `k` shards, end to end.
pub(crate) fn codeword_of(
    alloc: Global,
    k: u16,
    m: u16,
    shards: &[Span],
    width: usize,
) -> Result<Vec<u8>, NoMemory>
    requires some { 1 ≤ k }
    requires more { 1 ≤ m }
    requires total { k + m ≤ 65535 }
    requires shards { AreShards k (map (λ s. s.bytes.now) shards.now) }
    requires width { width ≡ first_width (map (λ s. s.bytes.now) shards.now) }
    requires room { (k + m) * width < 2 ^ 63 }
    ensures value { IfOk result (λ v. v.items ≡ end_to_end k (map (λ s. s.bytes.now) shards.now)
        ++ joined m (recovery_of k (map (λ s. s.bytes.now) shards.now))) }
    ensures long { IfOk result (λ v. length v.items ≡ (k + m) * width) }
{
    let mut rows = gathered(
        alloc,
        k,
        shards,
        width,
        (usize::from(k) + usize::from(m)) * width,
    )?;
    add_recoveries_here(alloc, k, m, &mut rows, width)?;
    Ok(rows)
}

// The first `k` shards, end to end, in room for so many bytes.
fn gathered(
    alloc: Global,
    k: u16,
    shards: &[Span],
    width: usize,
    room: usize,
) -> Result<Vec<u8>, NoMemory>
    requires shards { AreShards k (map (λ s. s.bytes.now) shards.now) }
    requires width { width ≡ first_width (map (λ s. s.bytes.now) shards.now) }
    ensures value { IfOk result
        (λ v. v.items ≡ end_to_end k (map (λ s. s.bytes.now) shards.now)) }
    ensures long { IfOk result (λ v. length v.items ≡ k * width) }
{
    let mut rows = Vec::with_capacity(alloc, room)?;
    for i in 0..usize::from(k) {
        put_bytes(&mut rows, shards[i].bytes)?;
    }
    Ok(rows)
}

// The shards of the targets, end to end, rebuilt from the first `k` shards.
pub(crate) fn rebuilt(
    alloc: Global,
    k: u16,
    m: u16,
    indices: &[u16],
    shards: &[Span],
    width: usize,
    targets: &[u16],
) -> Result<Vec<u8>, u32>
    requires shards { AreShards k (map (λ s. s.bytes.now) shards.now) }
    requires width { width ≡ first_width (map (λ s. s.bytes.now) shards.now) }
    requires short { k * width < 2 ^ 63 }
    requires targets { All (λ i. i < k + m) targets.now }
    requires room { length targets.now * width < 2 ^ 63 }
    ensures done { IfOk result (λ v. v.items ≡ joined (length targets.now)
        (rebuilt_of k indices.now (map (λ s. s.bytes.now) shards.now) targets.now)) }
    ensures codeword { (originals : List ℕ)
        → AreOfCodeword k originals indices.now (map (λ s. s.bytes.now) shards.now)
        → IfOk result (λ v. v.items ≡ joined (length targets.now)
        (λ i. code_row k originals width (slice_index targets.now i))) }
    ensures refused { IfErr result (λ code. (code ≡ 1)
        ⊎ ((e : PlanError) × IsRefusal k m indices.now e × (code ≡ plan_status e))) }
    ensures some { IfErr result (λ code. 1 ≤ code) }
{
    let plan = match Plan::new(alloc, k, m, indices) {
        Ok(plan) => plan,
        Err(error) => return Err(status_of_plan(error)),
    };
    let Ok(rows) = gathered(alloc, k, shards, width, usize::from(k) * width) else {
        return Err(NO_MEMORY);
    };
    match plan.rebuild_here(alloc, &rows, width, targets) {
        Ok(rebuilt) => Ok(rebuilt),
        Err(NoMemory) => Err(NO_MEMORY),
    }
}

// Puts `count` rows in buffers, from the row `first` on.
pub(crate) fn put_rows(buffers: &mut [Room], rows: &[u8], first: usize, width: usize, count: usize)
    requires few { first + count < 2 ^ 64 }
    requires rows { length rows.now ≡ (first + count) * width }
    requires room { HaveRoom count width (map (λ b. b.bytes.now) buffers.old) }
    ensures { ArePut count (λ i. row_of rows.now width (first + i))
        (map (λ b. b.bytes.now) buffers.old) (map (λ b. b.bytes.now) buffers.new) }
{
    for i in 0..count {
        put_row(&mut buffers[i], nth_row(rows, width, first + i));
    }
}

// Row i.
#[tactic(auto, unfolding(cw_base::specs::Rows::row_of))]
fn nth_row(rows: &[u8], width: usize, i: usize) -> &[u8]
    requires within { i * width + width ≤ length rows.now }
    ensures value { result.now ≡ row_of rows.now width i }
    ensures long { length result.now ≡ width }
{
    &rows[i * width..i * width + width]
}

fn put_row(buffer: &mut Room, row: &[u8])
    requires room { length row.now ≤ length buffer.old.bytes.now }
    ensures { IsPut row.now buffer.old.bytes.now buffer.new.bytes.now }
{
    put_front(&mut buffer.bytes, row);
}

// Puts values at the front of a buffer.
pub(crate) fn put_front<T: Copy>(out: &mut [T], values: &[T])
    requires room { length values.now ≤ length out.old }
    ensures { IsPut values.now out.old out.new }
{
    let (front, _) = out.split_at_mut(values.len());
    front.copy_from_slice(values);
}
