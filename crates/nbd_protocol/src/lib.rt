//! Reads what an NBD client sends and writes what a server answers (fixed newstyle), in buffers of the caller.
//!
//! `handshake` has greeting and options, `request` the requests and which of them an export takes, `reply` the replies, `numbers` the
//! constants. Nothing takes memory or knows where bytes come from.
//! Source: proto.md of the nbd project.
#![tactic(auto)]

mod handshake;
pub mod numbers;
mod reply;
mod request;

pub use handshake::{
    EXPORT_BYTES, FACT_REPLY_BYTES, GREETING_BYTES, NAME_REPLY_BYTES, OPTION_BYTES,
    OPTION_REPLY_BYTES, OptionHeader, Question, SIZES_BYTES, export_flags, write_block_sizes,
    write_export, write_fact_reply, write_greeting, write_name_reply, write_option_reply,
};
pub use reply::{REPLY_BYTES, write_reply};
pub use request::{REQUEST_BYTES, Request};
