//! The protocol's constants.

/// Handshake flag of both sides: fixed newstyle.
pub const FIXED_NEWSTYLE: u16 = 1;
/// Handshake flag of both sides: no zeros follow an export that `EXPORT_NAME` entered.
pub const NO_ZEROES: u16 = 2;

/// Option: enter the export of this name. The only reply is the export.
pub const EXPORT_NAME: u32 = 1;
/// Option: the client ends.
pub const ABORT: u32 = 2;
/// Option: name the exports.
pub const LIST: u32 = 3;
/// Option: tell facts of the export of this name.
pub const INFO: u32 = 6;
/// Option: as `INFO`, then enter it.
pub const GO: u32 = 7;

/// Reply to an option: done.
pub const ACK: u32 = 1;
/// Reply to an option: an export's name.
pub const SERVER: u32 = 2;
/// Reply to an option: a fact of an export.
pub const OF_EXPORT: u32 = 3;
/// Reply to an option: it is unknown.
pub const UNSUPPORTED: u32 = 0x8000_0001;
/// Reply to an option: its data are malformed.
pub const INVALID: u32 = 0x8000_0003;
/// Reply to an option: no export has this name.
pub const UNKNOWN: u32 = 0x8000_0006;
/// Reply to an option: its data are too long.
pub const TOO_BIG: u32 = 0x8000_0009;

/// Fact of an export: its size and flags.
pub const INFO_EXPORT: u16 = 0;
/// Fact of an export: its name.
pub const INFO_NAME: u16 = 1;
/// Fact of an export: its description.
pub const INFO_DESCRIPTION: u16 = 2;
/// Fact of an export: its block sizes.
pub const INFO_BLOCK_SIZE: u16 = 3;

/// Export flag: it has flags.
pub const HAS_FLAGS: u16 = 1;
/// Export flag: it takes no changes.
pub const READ_ONLY: u16 = 2;
/// Export flags: it takes flushes, `FUA`, trims and writes of zeros.
pub const TAKES_ALL: u16 = 4 | 8 | 32 | 64;

/// Request flag: answer after the commit.
pub const FUA: u16 = 1;
/// Request flag of a write of zeros: leave no hole. There are none here.
pub const NO_HOLE: u16 = 2;

/// Request: read bytes.
pub const READ: u16 = 0;
/// Request: write the bytes that follow.
pub const WRITE: u16 = 1;
/// Request: the client ends. There is no reply.
pub const DISCONNECT: u16 = 2;
/// Request: make all answered writes durable.
pub const FLUSH: u16 = 3;
/// Request: the bytes are no longer needed.
pub const TRIM: u16 = 4;
/// Request: write zeros.
pub const WRITE_ZEROES: u16 = 6;

/// Error: the export is read-only.
pub const EPERM: u32 = 1;
/// Error: the device failed.
pub const EIO: u32 = 5;
/// Error: memory ran out.
pub const ENOMEM: u32 = 12;
/// Error: the export does not take this request.
pub const EINVAL: u32 = 22;
/// Error: a change past the end.
pub const ENOSPC: u32 = 28;
/// Error: the server ends.
pub const ESHUTDOWN: u32 = 108;

/// The most bytes of a read or a write.
pub const MOST_BYTES: u32 = 32 << 20;
/// The most data bytes of an option; names have at most 4096.
pub const MOST_DATA: u32 = 8192;
