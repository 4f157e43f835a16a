//! The journal that threads share: tasks and clients, each in a thread of its own, or threads that the caller starts.

pub use byte_volume::numbers_left;
pub use shared_journal::{
    Credits, Exclusive, Journal, JournalName, Seat, SharedHandle, SharedReceipt, SharedTicket,
    Tally, Turns, UnnamedJournal, create,
};
pub use volume_service::{
    Client, ClientOutcome, DoneTasks, Every, Gate, HandleOutcome, HandlePlan, HeldDevice, Interval,
    NoInterval, OpenGate, Outcome, Point, ServedClients, Service, Session, Task, Touch, confirm,
    do_tasks, serve, serve_clients,
};
