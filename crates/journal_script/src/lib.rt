//! Scripts of journal operations, and the measures of the device that a script runs on. `jbench help run` prints the forms of scripts.
//! Nothing runs here.
#![tactic(auto)]

mod clients;
mod error;
mod measures;
mod order;
mod reading;
mod script;

pub use clients::{ClientHandle, ClientScript, ClientTouch, MOST_CLIENTS, read_clients};
pub use error::{
    BadClient, BadOperation, BadScript, ClientFault, Disagreement, Key, OperationFault,
    OperationName, ScriptError,
};
pub use measures::{
    DEFAULTS, HOMES, LENGTHS, Measures, block_size_of, is_block_size, limited, uuid_of,
};
pub use order::{Misplaced, State};
pub use reading::{read, read_over};
pub use script::{HANDLE_NAMES, HandleName, MOST_OPERATIONS, NamedBlocks, Operation, Script};
