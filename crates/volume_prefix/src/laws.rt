//! What a crash leaves of changes that came one after another. Each function states one law; no body runs.
ghost use Rattle.std.specs.Prelude.{◌≡◌, ◌≤◌, ◌++◌, ℕ, All, Contains, List, Some, length, map, slice_get, take};
ghost use Rattle.journal_model.specs.declared.transaction.Step.{Step};
ghost use Rattle.journal_model.specs.Disk.{Image, Leaves};
ghost use Rattle.journal_model.specs.Record.{steps_of};
ghost use Rattle.journal_world.specs.Front.{transactions};
ghost use Rattle.locked_journal.specs.Known.{TicketKnown, own_of_ticket};
ghost use Rattle.locked_journal.specs.Own.{Confirms, IsOwn};
ghost use Rattle.log_epochs.specs.Epoch.{Ended, Epoch};
ghost use Rattle.log_epochs.specs.JournalWorld.{Begins, JournalWorld, Leads, Move, Told};
ghost use Rattle.volume_prefix.specs.Changes.{AreFirst, Change, OpensToPrefix, steps_in, tickets_of};
ghost use Rattle.volume_prefix.specs.Runs.{IsWorkOf, RunsOneAtATime, recorded, works};

/// Whatever moves follow, crashes and openings too: if handles join one at a time, each crash image opens to the volume that the first of
/// the changes make, in the order in which they came. It has all that was acknowledged, and nothing of a later change.
pub fn a_crash_leaves_a_prefix_of_the_changes()
    ensures { (start end : JournalWorld) (moves : List Move) (epoch : Epoch) (image : Image) (changes : List Change) →
        RunsOneAtATime start moves end → end.below.epoch ≡ Some epoch → IsWorkOf end.told.front (tickets_of changes) →
        Leaves end.below.disk image → OpensToPrefix end.below.shape epoch end.told changes image }
{}

/// An epoch that has ended left such a prefix of its changes to the next one, which began on its last disk.
pub fn an_ended_epoch_left_such_a_prefix()
    ensures { (start end : JournalWorld) (moves : List Move) (place : ℕ) (x : Ended) (told : Told) (image : Image) (changes : List Change) →
        RunsOneAtATime start moves end → slice_get end.below.ended place ≡ Some x → slice_get end.past place ≡ Some told →
        IsWorkOf told.front (tickets_of changes) → Leaves x.after image → OpensToPrefix end.below.shape x.epoch told changes image }
{}

/// If each change is one handle at most, whole changes are kept.
pub fn changes_of_one_handle_are_kept_whole()
    ensures { (changes : List Change) (kept : List TicketKnown) (first : AreFirst changes kept) → All (λ c. length c ≤ 1) changes →
        kept ≡ tickets_of (take first.k changes) }
{}

/// Each run of handles one at a time has a list of tickets whose work its record is, and only one: of these handles, transactions and
/// steps, in this order.
pub fn a_run_has_one_list_of_tickets()
    ensures some { (start end : JournalWorld) (moves : List Move) (epoch : Epoch) → RunsOneAtATime start moves end →
        end.below.epoch ≡ Some epoch → (tickets : List TicketKnown) × IsWorkOf end.told.front tickets }
    ensures one { (start end : JournalWorld) (moves : List Move) (epoch : Epoch) (some others : List TicketKnown) → Begins start →
        Leads start moves end → end.below.epoch ≡ Some epoch → IsWorkOf end.told.front some → IsWorkOf end.told.front others →
        works some ≡ works others }
{}

/// A receipt that the record confirms is such a ticket.
pub fn a_confirmed_receipt_is_such_a_ticket()
    ensures { (start end : JournalWorld) (moves : List Move) (epoch : Epoch) (k : TicketKnown) → Begins start → Leads start moves end →
        end.below.epoch ≡ Some epoch → Confirms epoch.engine.committed (transactions end.told.front) (own_of_ticket k) →
        IsOwn end.told.front (own_of_ticket k) }
{}

/// The record of such a run has the steps of these handles, one handle after another, and then those of a handle that is open.
pub fn the_record_goes_from_handle_to_handle()
    ensures { (start end : JournalWorld) (moves : List Move) (epoch : Epoch) (tickets : List TicketKnown) →
        RunsOneAtATime start moves end → end.below.epoch ≡ Some epoch → IsWorkOf end.told.front tickets →
        (rest : List Step) × (steps_of (transactions end.told.front) ≡ steps_in tickets ++ rest)
        × All (λ s. Contains (map (λ h. h.0) end.told.front.open_handles) s.handle) rest }
{}

/// A record has the steps of its run since the opening, in the order in which they were made.
pub fn the_record_has_the_steps_of_the_run()
    ensures { (start end : JournalWorld) (moves : List Move) → Leads start moves end →
        steps_of (transactions end.told.front) ≡ recorded (steps_of (transactions start.told.front)) moves }
{}
