//! Which facts every step keeps. Each function states one law; no body runs.
ghost use Rattle.std.specs.Prelude.{◌≡◌, ◌<◌, ◌≤◌, ℕ, List, sum};
ghost use Rattle.journal_model.specs.Credits.{credit_word as word_of, credits_held};
ghost use Rattle.journal_model.specs.Disk.{Disk};
ghost use Rattle.journal_model.specs.Reading.{HasDirectRight};
ghost use Rattle.journal_model.specs.Transaction.{History};
ghost use Rattle.journal_world.specs.Credits.{HeldAfter, HeldAfterEvent, IsAtHand, NeedsFront, RefusedAfter, accounts_of, beside, beside_all};
ghost use Rattle.journal_world.specs.Direct.{IsLeftToHome};
ghost use Rattle.journal_world.specs.Engine.{AreBatchesOf, Engine};
ghost use Rattle.journal_world.specs.Front.FrontEvent.{LoadCredits, LoadMark, RefuseReserve, Reserve};
ghost use Rattle.journal_world.specs.Front.{Front, FrontEvent, FrontHappens, credit_word, credits_left, held};
ghost use Rattle.journal_world.specs.Journal.{Event, Happens, Journal};

/// The credits held and the credit word are the definitions': a credit lies in a caller's value, with an open handle, or with an
/// entry of the running transaction.
pub fn credits_held_are_the_definitions()
    ensures { (f : Front) (values refused : List ℕ) → sum values ≡ f.reserved → sum refused ≡ f.refused →
        (held f ≡ credits_held (accounts_of f values refused)) × (credit_word f ≡ word_of (accounts_of f values refused)) }
{}

/// The credit word alone decides whether a reserve is granted or refused. A load returns the word, or the mark.
pub fn the_credit_word_decides()
    ensures granted { (old new : Front) (n : ℕ) → FrontHappens old (Reserve n) new → n ≤ credits_left old }
    ensures refused { (old new : Front) (n : ℕ) → FrontHappens old (RefuseReserve n) new → (n ≤ old.capacity) × (credits_left old < n) }
    ensures word { (old new : Front) (found : ℕ) → FrontHappens old (LoadCredits found) new → found ≡ credit_word old }
    ensures mark { (old new : Front) (found : ℕ) → FrontHappens old (LoadMark found) new → found ≡ old.mark }
{}

/// No step loses or makes a credit. Only a granted reserve adds to the credits held. They leave when given back, when their handle
/// stops, and, for entries, at the seal. A refused reserve adds to the credit word until its own step takes that back.
pub fn no_credit_is_lost_or_made()
    ensures held { (old new : Front) (event : FrontEvent) → FrontHappens old event new → HeldAfter old event (held new) }
    ensures journal { (old new : Journal) (disk after : Disk) (event : Event) → Happens old disk event new after → HeldAfterEvent old.front event (held new.front) }
    ensures refused { (old new : Front) (event : FrontEvent) → FrontHappens old event new → RefusedAfter old event new.refused }
{}

/// Steps with the front at hand do not depend on the credits that callers hold without a handle, nor on what refused reserves have
/// not taken back. The same holds of steps of front and engine together.
pub fn what_callers_hold_changes_no_step_of_the_front()
    ensures journal { (old new : Journal) (disk after : Disk) (event : Event) (reserved refused : ℕ) → NeedsFront event → Happens old disk event new after →
        Happens (beside_all reserved refused old) disk event (beside_all reserved refused new) after }
    ensures front { (old new : Front) (event : FrontEvent) (reserved refused : ℕ) → IsAtHand event → FrontHappens old event new →
        FrontHappens (beside reserved refused old) event (beside reserved refused new) }
{}

/// A block is left to home exactly when `HasDirectRight` holds over the accepted transactions: the committed ones together leave no
/// copy of it, and no later one has an entry of it.
pub fn left_to_home_is_the_right_to_write()
    ensures { (e : Engine) (ts : History) (b : ℕ) → AreBatchesOf ts e.accepted → (IsLeftToHome e b → HasDirectRight ts e.committed e.committed b) × (HasDirectRight ts e.committed e.committed b → IsLeftToHome e b) }
{}
