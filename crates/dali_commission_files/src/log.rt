//! Whether the log of a database is damaged before its end (SQLite's file format, section 4).

ghost use Rattle.std.specs.Prelude.{◌≡◌, ◌≤◌, ◌<◌, ◌+◌, ◌/◌, ◌↔◌, ℕ, length, IsTrue, IfSome, None};
ghost use Rattle.sqlite_wal.specs.Format.{be32, stored_sum, is_big};
ghost use Rattle.dali_commission_files.specs.Logs.{begins_log, IsHeadOf, IsSigned, IsOf, HoldsBehind, frame_at, Holds};
ghost use Rattle.dali_commission_files.specs.Logs.{BeginsBehind, IsBroken, IsDamaged};

use sqlite_wal::checksum_of;

/// How many bytes the header of a log has, and that of a frame.
const HEAD: usize = 32;

const FRAME: usize = 24;

/// The first byte of a log, and of one that is emptied.
const MAGIC: u8 = 0x37;

const EMPTIED: u8 = 0;

/// The page with which each transaction begins that is counted, as each of a store is (`sqlite_wal`).
const COUNTED: u32 = 0xFF00_0000;

/// The number that stands at a place, its highest byte first.
#[tactic(auto, unfolding(sqlite_wal::specs::Format::be32))]
fn number_at(bytes: &[u8], at: usize) -> u32
    requires { at + 4 ≤ length bytes.now }
    ensures { result ≡ be32 bytes.now at }
{
    u32::from(bytes[at]) * 0x100_0000
        + u32::from(bytes[at + 1]) * 0x1_0000
        + u32::from(bytes[at + 2]) * 0x100
        + u32::from(bytes[at + 3])
}

/// Two numbers, as of a checksum.
fn numbers_at(bytes: &[u8], at: usize) -> (u32, u32)
    requires { at + 8 ≤ length bytes.now }
    ensures { result ≡ stored_sum bytes.now at }
{
    (number_at(bytes, at), number_at(bytes, at + 4))
}

/// Whether these bytes begin as those of a log, or of one that is emptied.
fn begins_log(log: &[u8]) -> bool
    ensures { result ≡ begins_log log.now }
{
    match log {
        [first, ..] => *first == MAGIC || *first == EMPTIED,
        [] => false,
    }
}

/// The header of a log. Its first byte is another one when the log is emptied.
fn head_of(log: &[u8]) -> Option<[u8; HEAD]>
    ensures { IsHeadOf log.now result }
{
    let mut head = [0; HEAD];
    head.copy_from_slice(log.get(..HEAD)?);
    head[0] = MAGIC;
    Some(head)
}

fn is_big(head: &[u8; HEAD]) -> bool
    ensures { result ≡ is_big head.now }
{
    head[3] == 0x83
}

/// Whether the checksum of a header holds.
fn is_signed(head: &[u8; HEAD]) -> bool
    ensures { IsTrue result ↔ IsSigned head.now }
{
    checksum_of(is_big(head), (0, 0), &head[..FRAME]) == numbers_at(head, FRAME)
}

/// Whether a frame is of the log as it is now, by the number that its header has too.
fn is_of(head: &[u8; HEAD], frame: &[u8]) -> bool
    requires { 24 ≤ length frame.now }
    ensures { IsTrue result ↔ IsOf head.now frame.now }
{
    frame[8..16] == head[16..24]
}

/// The frame at a place of the log.
fn frame_at(frames: &[u8], size: usize, i: usize) -> &[u8]
    requires size { 24 ≤ size }
    requires within { i < length frames.now / size }
    ensures frame { result.now ≡ frame_at size frames.now i }
    ensures long { 24 ≤ length result.now }
{
    &frames[i * size..(i + 1) * size]
}

/// The checksum of a frame, if it holds behind that of the one before.
fn sum_after(head: &[u8; HEAD], before: (u32, u32), frame: &[u8]) -> Option<(u32, u32)>
    requires { 24 ≤ length frame.now }
    ensures holds { IfSome result (HoldsBehind head.now before frame.now) }
    ensures torn { result ≡ None → HoldsBehind head.now before frame.now (stored_sum frame.now 16) → ⊥ }
{
    let front = checksum_of(is_big(head), before, &frame[..8]);
    let sum = checksum_of(is_big(head), front, &frame[FRAME..]);
    if is_of(head, frame) && sum == numbers_at(frame, 16) {
        Some(sum)
    } else {
        None
    }
}

/// How many frames hold, each behind the one before.
fn held(head: &[u8; HEAD], frames: &[u8], size: usize) -> usize
    requires { 24 ≤ size }
    ensures within { result ≤ length frames.now / size }
    ensures holds { (i : ℕ) → i < result → Holds head.now size frames.now i }
    ensures torn { result < length frames.now / size → Holds head.now size frames.now result → ⊥ }
{
    let mut sum = numbers_at(head, FRAME);
    let count = frames.len() / size;
    for i in 0..count {
        match sum_after(head, sum, frame_at(frames, size, i)) {
            Some(after) => sum = after,
            None => return i,
        }
    }
    count
}

/// Whether another transaction begins behind the frame at this place: behind one that ends a transaction, or with the
/// page that begins one.
fn begins_behind(head: &[u8; HEAD], frames: &[u8], size: usize, from: usize) -> bool
    requires { 24 ≤ size }
    ensures { IsTrue result ↔ BeginsBehind head.now size frames.now from (length frames.now / size) }
{
    let mut is_ended = false;
    for i in from..frames.len() / size {
        let frame = frame_at(frames, size, i);
        if is_of(head, frame) {
            if is_ended || (i > from && number_at(frame, 0) == COUNTED) {
                return true;
            }
            is_ended = number_at(frame, 4) != 0;
        }
    }
    false
}

/// Whether another transaction begins behind frames whose checksums do not hold. All that lies before it was on the
/// disk then, so it is damaged, and not torn.
fn is_broken(head: &[u8; HEAD], frames: &[u8], size: usize) -> bool
    requires { 24 ≤ size }
    ensures { IsTrue result ↔ IsBroken head.now size frames.now }
{
    begins_behind(head, frames, size, held(head, frames, size))
}

/// Whether a log is damaged before its end, so that SQLite reads only what lies before.
pub(crate) fn is_damaged(log: &[u8]) -> bool
    ensures { IsTrue result ↔ IsDamaged log.now }
{
    let Some(head) = head_of(log) else {
        return false;
    };
    let size = number_at(&head, 8);
    if !begins_log(log) || !is_signed(&head) || size > 65536 {
        return log.len() > HEAD + FRAME;
    }
    match log.get(HEAD..) {
        Some(frames) => is_broken(&head, frames, FRAME + size as usize),
        None => false,
    }
}
