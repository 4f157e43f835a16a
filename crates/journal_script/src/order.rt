//! Tells whether a script's operations name handles in the right state, if every start and restart is accepted.
use crate::script::{HANDLE_NAMES, HandleName, Operation};
use std::alloc::{AllocError, Global};
use std::fmt;

/// The state of a handle's name.
#[derive(Clone, Copy)]
pub enum State {
    /// It names nothing yet.
    Unused,
    /// It names an open handle.
    Open,
    /// It names the ticket of a stopped handle.
    Stopped,
}

/// A handle in another state than its operation needs.
#[derive(Clone, Copy)]
pub struct Misplaced {
    /// The handle's name.
    pub handle: HandleName,
    /// Its state.
    pub state: State,
}

impl fmt::Display for Misplaced {
    fn fmt<W: fmt::Write>(&self, f: &mut fmt::Formatter<W>) -> fmt::Result {
        let state = match self.state {
            State::Unused => "was not started",
            State::Open => "is open",
            State::Stopped => "is stopped",
        };
        write!(f, "handle {} {state}", self.handle)
    }
}

/// The state after an operation; `None` if the operation needs another state.
fn state_after(state: State, operation: &Operation) -> Option<State> {
    match (operation, state) {
        (Operation::Start(..), State::Unused | State::Stopped) => Some(State::Open),
        (Operation::Write(..) | Operation::Revoke(..) | Operation::Read(..), State::Open) => {
            Some(State::Open)
        }
        (Operation::Extend(..) | Operation::Restart(..), State::Open) => Some(State::Open),
        (Operation::Stop(_), State::Open) => Some(State::Stopped),
        (Operation::Request(_) | Operation::Status(_) | Operation::Wait(_), State::Stopped) => {
            Some(State::Stopped)
        }
        _ => None,
    }
}

/// Notes the operation in the states, if its handle is in the right one.
fn follow(states: &mut [State], operation: &Operation) -> Result<(), Misplaced> {
    let Some(handle) = operation.handle() else {
        return Ok(());
    };
    let Some(place) = states.get_mut(handle.index()) else {
        return Err(Misplaced {
            handle,
            state: State::Unused,
        });
    };
    let state = *place;
    match state_after(state, operation) {
        Some(behind) => {
            *place = behind;
            Ok(())
        }
        None => Err(Misplaced { handle, state }),
    }
}

/// The first operation that names a handle in the wrong state, if any, with its place in the list.
///
/// # Errors
///
/// Memory ran out.
pub fn first_misplaced(
    alloc: Global,
    operations: &[Operation],
) -> Result<Option<(usize, Misplaced)>, AllocError> {
    let mut states = vec![in alloc; State::Unused; usize::from(HANDLE_NAMES)]?;
    for (place, operation) in operations.iter().enumerate() {
        if let Err(misplaced) = follow(&mut states, operation) {
            return Ok(Some((place, misplaced)));
        }
    }
    Ok(None)
}
