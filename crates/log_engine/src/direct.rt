//! Direct writes: bytes go straight home, past the log, to a block that the transactions leave to home; a flush of home makes them durable.
//! Source: this project's own, by what journal.rst says of revokes (a block that is no longer journalled may be written in place).
ghost use Rattle.std.specs.Prelude.{◌≡◌, false, length, IfErr, OnErr, OnOk, Some};
ghost use Rattle.journal_model.specs.declared.number.Area.TheVariants.{Home};
ghost use Rattle.journal_model.specs.declared.refusal.JournalError.TheVariants.{Device as DeviceFailed};
ghost use Rattle.block_device.specs.State.{CountsFaults, MakesAtMostOneCall};
ghost use Rattle.journal_world.specs.Call.{Call};
ghost use Rattle.journal_world.specs.Call.Call.{Flush, Write};
ghost use Rattle.journal_world.specs.Direct.{DirectCall, DirectFaults, DirectSteps, IsLeftToHome};
ghost use Rattle.log_ledger.specs.Due.{Fits, call_of};
ghost use Rattle.block_device.specs.Call.{IsOneMoment, MakesOneCall};
ghost use Rattle.log_engine.specs.Direct.{DirectSyncRefused, DirectWriteRefused, IsDuringDirectSync, IsDuringDirectWrite};
ghost use Rattle.log_engine.specs.Engine.{MayTouch};

use crate::call::make_call;
use crate::engine::Engine;
use block_device::Device;
use journal_model::{Area, BlockNo, JournalError, Tid};
use log_ledger::Due;

impl<D: Device> Engine<D> {
    /// Writes one block directly home, past the log, if it is left to home: the transaction being committed has no entry of it, and its
    /// last entry in those committed since the opening, released ones too, is a revoke or none. It is durable after a `sync_direct`
    /// that answers Ok. It takes no memory, and one look-up decides, however many transactions there were.
    ///
    /// # Errors
    ///
    /// `Aborted`; `BadBlock` as in `read`; `NotDirect` (the block is not left to home): nothing changes. `Device`: home reads, and a
    /// crash leaves, the old bytes or these.
    /// Source: this project's own, by what journal.rst says of revokes.
    pub fn write_direct(&mut self, block: BlockNo, bytes: &[u8]) -> Result<(), JournalError>
        requires { length bytes.now ≡ (D.state self.old.device).shape.block_size }
        ensures may { OnOk result ((self.old.engine.aborted ≡ false) × MayTouch self.old.engine block × IsLeftToHome self.old.engine block) }
        ensures ok { OnOk result (DirectSteps self.old.engine (D.state self.old.device).disk (Write Home block bytes.now) self.new.engine (D.state self.new.device).disk) }
        ensures err { IfErr result (λ e. DirectWriteRefused D.state self.old block bytes.now self.new e) }
        ensures no_fault { OnOk result ((D.state self.new.device).faults ≡ (D.state self.old.device).faults) }
        ensures device { MakesOneCall D.state D.honest (IsDuringDirectWrite self.old.engine block bytes.now (D.state self.old.device).disk) self.old.device self.new.device }
    {
        if self.ledger.aborted {
            return Err(JournalError::Aborted);
        }
        if !block.is_allowed(self.ledger.layout, self.device.blocks(Area::Home)) {
            return Err(JournalError::BadBlock);
        }
        if !self
            .effects
            .is_left_to_home(block, Tid(self.ledger.next_number()))
        {
            return Err(JournalError::NotDirect);
        }
        self.call_directly(Due::Write(Area::Home, block.0), bytes)
    }

    /// Flushes home, which makes earlier direct writes durable. It takes no memory.
    ///
    /// # Errors
    ///
    /// `Aborted`. `Device`: nothing became durable.
    pub fn sync_direct(&mut self) -> Result<(), JournalError>
        ensures ok { OnOk result (DirectSteps self.old.engine (D.state self.old.device).disk (Flush Home) self.new.engine (D.state self.new.device).disk) }
        ensures err { IfErr result (λ e. DirectSyncRefused D.state self.old self.new e) }
        ensures no_fault { OnOk result ((D.state self.new.device).faults ≡ (D.state self.old.device).faults) }
        ensures device { MakesOneCall D.state D.honest (IsDuringDirectSync self.old.engine (D.state self.old.device).disk) self.old.device self.new.device }
    {
        if self.ledger.aborted {
            Err(JournalError::Aborted)
        } else {
            self.call_directly(Due::Flush(Area::Home), &[])
        }
    }

    /// Makes a device call past the log; a failure aborts the journal.
    fn call_directly(&mut self, due: Due, bytes: &[u8]) -> Result<(), JournalError>
        requires running { self.old.engine.aborted ≡ false }
        requires direct { (call : Call) × (call_of due bytes.now ≡ Some call) × DirectCall self.old.engine call }
        requires fits { Fits (D.state self.old.device).shape due bytes.now }
        ensures ok { (call : Call) → call_of due bytes.now ≡ Some call →
            OnOk result (DirectSteps self.old.engine (D.state self.old.device).disk call self.new.engine (D.state self.new.device).disk) }
        ensures err { (call : Call) → call_of due bytes.now ≡ Some call →
            OnErr result (DirectFaults self.old.engine (D.state self.old.device).disk call self.new.engine (D.state self.new.device).disk) }
        ensures failed { IfErr result (λ e. e ≡ DeviceFailed) }
        ensures faults { CountsFaults result (D.state self.old.device) (D.state self.new.device) }
        ensures shape { (D.state self.new.device).shape ≡ (D.state self.old.device).shape }
        ensures one { IsOneMoment (D.state self.old.device) (D.state self.new.device) }
        ensures calls { MakesAtMostOneCall (D.state self.old.device) (D.state self.new.device) }
        ensures honest { D.honest self.new.device → D.honest self.old.device }
    {
        if make_call(&mut self.device, due, bytes).is_err() {
            self.ledger.aborted = true;
            return Err(JournalError::Device);
        }
        Ok(())
    }
}
