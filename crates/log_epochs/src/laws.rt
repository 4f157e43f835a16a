//! Which promises every run of moves keeps. Each function states one law; no body runs.
ghost use Rattle.std.specs.Prelude.{◌≡◌, ℕ, ◌<◌, List, length};
ghost use Rattle.journal_model.specs.Disk.{Disk, Image, Shape};
ghost use Rattle.journal_model.specs.declared.number.Area.TheVariants.{Log};
ghost use Rattle.log_model.specs.Opening.{HasLimit, IsClean, OpensAs, greatest_number};
ghost use Rattle.journal_model.specs.Transaction.{Volume};
ghost use Rattle.journal_world.specs.Opening.{IsOpening, cleaned};
ghost use Rattle.log_epochs.specs.OpeningSteps.{Found, IsFound, next_of};
ghost use Rattle.log_epochs.specs.OpeningSteps.OpeningStage.{Done};
ghost use Rattle.log_epochs.specs.OpeningRun.{IsFoundOn, IsMoment, KeepsCount, Reached};
ghost use Rattle.log_epochs.specs.UpgradeRun.{IsUpgradeMoment, KeepsNumber};
ghost use Rattle.log_epochs.specs.EngineWorld.{World, Move, Begins, ComesToRun, Leads};
ghost use Rattle.log_epochs.specs.EngineWorld.Phase.{Shut};
ghost use Rattle.log_epochs.specs.EnginePromise.{KeepsPromise};
ghost use Rattle.log_epochs.specs.DirectPromise.{IsSynced, KeepsDirect, since_write};
ghost use Rattle.log_epochs.specs.JournalWorld.{ComesTo, JournalWorld, Move as JournalMove, Begins as JournalBegins, Leads as JournalLeads};
ghost use Rattle.log_epochs.specs.JournalDirect.{IsSynced as JournalIsSynced, KeepsDirect as JournalKeepsDirect, since_write as journal_since_write};
ghost use Rattle.log_epochs.specs.JournalPromise.{KeepsPromise as JournalKeepsPromise};

/// At each moment of an opening nothing is written yet, or the log was flushed; from then on every crash image opens to what every
/// image opened to at that flush.
pub fn every_moment_of_an_opening_keeps_n()
    ensures { (shape : Shape) (old disk : Disk) → IsMoment shape old disk → KeepsCount shape old disk }
{}

/// Moves of the machine lead to each moment of an opening, in any world whose device nobody works on.
pub fn every_moment_of_an_opening_is_reached()
    ensures { (w : JournalWorld) (disk : Disk) → w.below.phase ≡ Shut → IsMoment w.below.shape w.below.disk disk → ComesTo w disk }
{}

/// The same holds of an upgrade, which also keeps the next number.
pub fn every_moment_of_an_upgrade_keeps_n_and_the_next_number()
    ensures { (shape : Shape) (old disk : Disk) → IsUpgradeMoment shape old disk → KeepsNumber shape old disk }
{}

/// An opening accepts each image that opens, if block 0 fills a block and a number is left.
pub fn what_opens_is_found_good()
    ensures { (shape : Shape) (image : Image) (got : Volume) → OpensAs shape image got → length (image Log 0) ≡ shape.block_size → ((limit : ℕ) → HasLimit shape image limit → limit < greatest_number) → (found : Found) × (found.image ≡ image) × IsFound shape found }
{}

/// If nobody works on a device with a clean and good log, an opening leads to a running engine.
pub fn a_clean_log_comes_to_run()
    ensures { (w : World) (found : Found) → w.phase ≡ Shut → IsFoundOn w.shape found w.disk → IsClean w.shape found.image → ComesToRun w }
{}

/// The calls of an opening that reached its end are a whole opening: home is replayed, the log is clean with the next number, and
/// n is kept.
pub fn a_done_opening_is_whole()
    ensures { (shape : Shape) (found : Found) (old new : Disk) → IsFoundOn shape found old → Reached shape found old Done new → IsOpening shape old new (cleaned (found.image Log 0) (next_of found)) (next_of found) }
{}

/// Each epoch of an engine keeps its promise over any moves: steps, device failures, crashes at any time (also within openings),
/// closes, and openings of a device that was handed out.
pub fn every_engine_keeps_the_promise()
    ensures { (start end : World) (moves : List Move) → Begins start → Leads start moves end → KeepsPromise end }
{}

/// Once home is synced, an earlier direct write survives every crash, and nothing older replaces it, while no accepted transaction
/// has an entry of its block. Home holds, and an engine reads, that write's bytes or a later direct write's.
pub fn a_synced_direct_write_stays()
    ensures { (start end : World) (b : ℕ) (v : List ℕ) (run : IsSynced start b v end) → Begins start → KeepsDirect (since_write start b v end run) b v end }
{}

/// Each epoch of a journal keeps what it acknowledged, over any moves.
pub fn every_journal_keeps_the_promise()
    ensures { (start end : JournalWorld) (moves : List JournalMove) → JournalBegins start → JournalLeads start moves end → JournalKeepsPromise end }
{}

/// A journal keeps a synced direct write until it seals a transaction with an entry of the block.
pub fn a_journals_synced_direct_write_stays()
    ensures { (start end : JournalWorld) (b : ℕ) (v : List ℕ) (run : JournalIsSynced start b v end) → JournalBegins start → JournalKeepsDirect (journal_since_write start b v end run) b v end }
{}
