//! Rows of the device calls by which an opening changes a device, and the device that notes them.
ghost use Rattle.std.specs.Prelude.{◌≡◌};

use crate::RowError;
use crate::logs::{device_of, log_of};
use block_device::{Device, DeviceFault};
use journal_model::Area;
use recovery::open;
use std::alloc::{AllocError, Global};
use std::fmt::Write;

/// A device call that changes a device.
#[derive(Clone, Copy)]
enum ChangingCall {
    Write(Area, u64),
    Flush(Area),
}

/// How many calls are noted.
const MOST_CALLS: usize = 64;

/// A device that notes the first of these calls.
#[derive(Drop)]
pub(crate) struct NotedCalls<D> {
    device: D,
    calls: [Option<ChangingCall>; MOST_CALLS],
    count: usize,
}

impl<D: Device + Drop> NotedCalls<D> {
    /// A device over this one, without a noted call.
    pub(crate) fn new(device: D) -> Self
        ensures { result.device ≡ device }
    {
        NotedCalls {
            device,
            calls: [None; MOST_CALLS],
            count: 0,
        }
    }

    /// The device inside.
    pub(crate) fn into_inner(self) -> D
        ensures { result ≡ self.device }
    {
        self.device
    }

    /// The lines of the noted calls.
    ///
    /// # Errors
    ///
    /// `Unread`: there are more than can be noted. `Memory`.
    pub(crate) fn text(&self, alloc: Global) -> Result<String, RowError> {
        if self.count > MOST_CALLS {
            return Err(RowError::Unread);
        }
        let mut told = String::new(alloc);
        for call in self.calls.iter().flatten() {
            add_call(&mut told, *call)?;
        }
        Ok(told)
    }
}

impl<D: Device> NotedCalls<D> {
    fn note(&mut self, call: ChangingCall)
        ensures { self.new.device ≡ self.old.device }
    {
        if let Some(place) = self.calls.get_mut(self.count) {
            *place = Some(call);
        }
        self.count = self.count.saturating_add(1);
    }
}

impl<D: Device> Device for NotedCalls<D> {
    ghost state = { λ r. D.state r.device };

    ghost honest = { λ r. D.honest r.device };

    fn read(&mut self, area: Area, n: u64, into: &mut [u8]) -> Result<(), DeviceFault> {
        self.device.read(area, n, into)
    }

    fn write(&mut self, area: Area, n: u64, bytes: &[u8]) -> Result<(), DeviceFault> {
        self.note(ChangingCall::Write(area, n));
        self.device.write(area, n, bytes)
    }

    fn flush(&mut self, area: Area) -> Result<(), DeviceFault> {
        self.note(ChangingCall::Flush(area));
        self.device.flush(area)
    }

    fn blocks(&self, area: Area) -> u64 {
        self.device.blocks(area)
    }

    fn block_size(&self) -> usize {
        self.device.block_size()
    }
}

fn name_of(area: Area) -> &'static str {
    match area {
        Area::Log => "log",
        Area::Home => "home",
    }
}

fn add_call(told: &mut String, call: ChangingCall) -> Result<(), AllocError> {
    match call {
        ChangingCall::Write(area, n) => writeln!(told, "write {} {n}", name_of(area)),
        ChangingCall::Flush(area) => writeln!(told, "flush {}", name_of(area)),
    }
}

/// Device calls of openings. Given: a log, on a device that lost power with it and whose home is zeros. Found: a line for each write and
/// each flush of the opening, in order.
pub fn opening_calls(alloc: Global, given: &str) -> Result<String, RowError> {
    let device = NotedCalls::new(device_of(alloc, &log_of(alloc, given)?)?);
    match open(alloc, device) {
        Ok(opened) => opened.into_device().text(alloc),
        Err((device, _)) => device.text(alloc),
    }
}
