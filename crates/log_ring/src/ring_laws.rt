//! What holds of positions and places. Each function states one law; no body runs.
ghost use Rattle.std.specs.Prelude.{◌≡◌, ◌+◌, ◌<◌, ◌≢◌, ℕ};
ghost use Rattle.log_model.specs.Chain.{Ring, place_from, ring_place};

/// The place `count` blocks after that of a position is the place of the position higher by
/// `count`.
pub fn places_follow_positions()
    ensures { (r : Ring) (position count : ℕ) → place_from r (ring_place r position) count ≡ ring_place r (position + count) }
{}

/// A position one lap later has the same place.
pub fn a_lap_comes_back()
    ensures { (r : Ring) (position : ℕ) → ring_place r (position + r.blocks) ≡ ring_place r position }
{}

/// Two positions less than a lap apart have different places.
pub fn within_a_lap_places_differ()
    ensures { (r : Ring) (position later : ℕ) → position < later → later < position + r.blocks → ring_place r position ≢ ring_place r later }
{}
