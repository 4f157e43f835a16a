//! Writes replies to requests.
ghost use Rattle.std.specs.Prelude.{◌≡◌, ◌≤◌, ◌++◌, length, drop};
ghost use Rattle.nbd_protocol.specs.Layout.{reply_bytes, simple_reply};

use byteorder::{BigEndian, ByteOrder};

/// Bytes of a reply, without those of a read, which follow it.
pub const REPLY_BYTES: usize = 16;

/// The magic of a simple reply.
const MAGIC: u32 = 0x6744_6698;

/// Writes a simple reply over the front of a buffer; `error` 0 is success.
/// Source: proto.md, "Simple reply message".
pub fn write_reply(into: &mut [u8], error: u32, cookie: u64)
    requires { reply_bytes ≤ length into.old }
    ensures { into.new ≡ simple_reply error cookie ++ drop reply_bytes into.old }
{
    BigEndian::write_u32(into, MAGIC);
    BigEndian::write_u32(&mut into[4..], error);
    BigEndian::write_u64(&mut into[8..], cookie);
}
