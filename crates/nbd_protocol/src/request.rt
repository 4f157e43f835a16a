//! Reads requests, and decides which of them an export takes.
ghost use Rattle.std.specs.Prelude.{◌≡◌, ◌≢◌, ◌≤◌, ◌<◌, ◌+◌, ◌↔◌, true, false, length, MatchOption, IfNone, IfSome};
ghost use Rattle.nbd_protocol.specs.Layout.{IsRequest, number_at, request_bytes, request_magic};
ghost use Rattle.nbd_protocol.specs.Requests.{IsTaken, IsTakenChange, IsWithin, RefusedWith, WantsCommit, most_bytes};

use crate::numbers::{
    EINVAL, ENOSPC, EPERM, FLUSH, FUA, MOST_BYTES, NO_HOLE, READ, TRIM, WRITE, WRITE_ZEROES,
};
use byteorder::{BigEndian, ByteOrder};

/// Bytes of a request, without those of a write, which follow it.
pub const REQUEST_BYTES: usize = 28;

/// The magic of a request.
const MAGIC: u32 = 0x2560_9513;

#[derive(Clone, Copy, Debug)]
pub struct Request {
    /// `FUA` and other flags of `numbers`.
    pub flags: u16,
    /// `READ` or another command of `numbers`.
    pub command: u16,
    /// The reply repeats it.
    pub cookie: u64,
    /// The first byte of the range.
    pub offset: u64,
    /// Length of the range in bytes.
    pub length: u32,
}

impl Request {
    /// Reads a request; `None` if the magic is wrong.
    /// Source: proto.md, "Request message".
    pub fn read(bytes: &[u8]) -> Option<Request>
        requires { request_bytes ≤ length bytes.now }
        ensures { MatchOption result (number_at 0 4 bytes.now ≢ request_magic) (IsRequest bytes.now) }
    {
        if BigEndian::read_u32(bytes) != MAGIC {
            return None;
        }
        Some(Request {
            flags: BigEndian::read_u16(&bytes[4..]),
            command: BigEndian::read_u16(&bytes[6..]),
            cookie: BigEndian::read_u64(&bytes[8..]),
            offset: BigEndian::read_u64(&bytes[16..]),
            length: BigEndian::read_u32(&bytes[24..]),
        })
    }

    /// Whether a successful answer waits for a commit.
    /// Source: proto.md, "Ordering of messages and writes".
    pub fn wants_commit(&self) -> bool
        ensures { result ≡ true ↔ WantsCommit self.now }
    {
        match self.command {
            FLUSH => true,
            WRITE | TRIM | WRITE_ZEROES => self.flags % 2 == FUA,
            _ => false,
        }
    }

    /// The error that refuses the request for an export of `size` bytes; `None` if the export takes it.
    ///
    /// `EPERM`: a change, and the export is read-only. `ENOSPC`: a change past the end. `EINVAL`: a read past the end, a read or write of
    /// more than `MOST_BYTES`, a flush with an offset or a length, an unknown flag or command.
    /// Source: proto.md, "Error values".
    pub fn refusal(&self, size: u64, read_only: bool) -> Option<u32>
        ensures takes { IfNone result (IsTaken size read_only self.now) }
        ensures refuses { IfSome result (λ e. (IsTaken size read_only self.now → ⊥) × RefusedWith size read_only self.now e) }
        ensures error { IfSome result (λ e. e ≢ 0) }
    {
        match self.command {
            READ => self.refusal_of_read(size),
            WRITE => self.refusal_of_change(size, read_only, FUA, MOST_BYTES),
            TRIM => self.refusal_of_change(size, read_only, FUA, u32::MAX),
            WRITE_ZEROES => self.refusal_of_change(size, read_only, FUA | NO_HOLE, u32::MAX),
            FLUSH => self.refusal_of_flush(),
            _ => Some(EINVAL),
        }
    }

    /// As `refusal`, for a read.
    fn refusal_of_read(&self, size: u64) -> Option<u32>
        ensures takes { IfNone result ((self.now.flags < 2) × (self.now.length ≤ most_bytes) × IsWithin size self.now) }
        ensures refuses { IfSome result (λ e. (e ≡ 22) × ((self.now.flags < 2) → (self.now.length ≤ most_bytes) → IsWithin size self.now → ⊥)) }
    {
        if self.flags > FUA || self.length > MOST_BYTES || self.is_past(size) {
            return Some(EINVAL);
        }
        None
    }

    /// As `refusal`, for a change with flags up to `flags` and at most `most` bytes.
    fn refusal_of_change(&self, size: u64, read_only: bool, flags: u16, most: u32) -> Option<u32>
        ensures takes { IfNone result (IsTakenChange size read_only flags most self.now) }
        ensures refuses { IfSome result (λ e. (IsTakenChange size read_only flags most self.now → ⊥) × RefusedWith size read_only self.now e) }
        ensures error { IfSome result (λ e. e ≢ 0) }
    {
        if read_only {
            return Some(EPERM);
        }
        if self.is_past(size) {
            return Some(ENOSPC);
        }
        if self.flags > flags || self.length > most {
            return Some(EINVAL);
        }
        None
    }

    /// As `refusal`, for a flush.
    fn refusal_of_flush(&self) -> Option<u32>
        ensures takes { IfNone result ((self.now.flags < 2) × (self.now.offset ≡ 0) × (self.now.length ≡ 0)) }
        ensures refuses { IfSome result (λ e. (e ≡ 22) × ((self.now.flags < 2) → (self.now.offset ≡ 0) → (self.now.length ≡ 0) → ⊥)) }
    {
        if self.flags > FUA || self.offset != 0 || self.length != 0 {
            return Some(EINVAL);
        }
        None
    }

    /// Whether the request ends past `size` bytes.
    fn is_past(&self, size: u64) -> bool
        ensures past { result ≡ true → size < self.now.offset + self.now.length }
        ensures within { result ≡ false → IsWithin size self.now }
    {
        let length = u64::from(self.length);
        size < length || size - length < self.offset
    }
}
