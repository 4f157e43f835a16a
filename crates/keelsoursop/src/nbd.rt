//! The volume as a block device: NBD over one reader and one writer.

pub use nbd_server::{
    Confirmed, Done, Every, Export, Interval, NoInterval, NoPrefetch, Output, Prefetch, Served,
    serve,
};
