//! Laws of rings: of one over what was pushed to it, and of those of all stations over the history.
ghost use Rattle.std.specs.Prelude.{◌≡◌, ℕ, Bool, ◌&&◌, ◌+◌, ◌-◌, ◌<◌, ◌≤◌, nat_lt, if◌then◌else◌, List, [], ◌∷◌};
ghost use Rattle.std.specs.Prelude.{◌++◌, length, find, option_map, slice_get, Some, None, ◌↔◌};
ghost use Rattle.protocol.specs.Catalog.{Station};
ghost use Rattle.protocol.specs.History.{Arrival, is_held, first_position};
ghost use Rattle.station_ring.specs.declared.held.Held.{Held};
ghost use Rattle.station_ring.specs.Rings.{RingValue, IsRing, empty, first_place, held_at, number_at, place_with};
ghost use Rattle.station_ring.specs.Rings.{holding_of, pushed, pushed_all};
ghost use Rattle.station_ring.specs.HeldRecords.{held_of, ring_of, IsArrival};

/// After any pushes a ring holds the last of them, as many as its capacity, and has counted them all: what is held at a
/// place is what was pushed there, while fewer than the capacity came after it.
pub fn last_pushes_held()
    ensures all { (capacity first : ℕ) (items : List Held) →
        pushed_all (empty capacity first) items ≡ holding_of capacity first items }
    ensures start { (capacity first : ℕ) → empty capacity first ≡ holding_of capacity first [] }
    ensures step { (capacity first : ℕ) (items : List Held) (item : Held) →
        pushed (holding_of capacity first items) item ≡ holding_of capacity first (items ++ item ∷ []) }
    ensures places { (capacity first : ℕ) (items : List Held) (place : ℕ) → 1 ≤ capacity →
        held_at (holding_of capacity first items) place
        ≡ (if nat_lt (length items - (place + 1)) capacity then slice_get items place else None) }
{}

/// The held records of a ring have different numbers: a place is found by a number exactly where it is held and its
/// record has that number.
pub fn places_found()
    ensures { (r : RingValue) (number place : ℕ) → IsRing r →
        (place_with r number ≡ Some place) ↔
        ((first_place r ≤ place) × (place < r.pushes) × (number_at r place ≡ number)) }
{}

/// The first arrival of a station that is held and of which a test says yes is the first record in its ring of which
/// the test says yes.
pub fn held_in_the_ring()
    ensures { (s : Station) (h : List Arrival) (test : ℕ → Arrival → Bool) (on_held : Held → Bool) →
        ((p : ℕ) (a : Arrival) → test p a ≡ on_held (held_of p a)) →
        first_position (λ p later a. is_held s later a && test p a) 0 h
        ≡ option_map (λ x. x.stamp) (find on_held (ring_of s h).held) }
{}

/// What is held at a place of a station's ring is an arrival of that station, and the place's number is the arrival's.
pub fn arrivals_by_place()
    ensures { (s : Station) (h : List Arrival) (place : ℕ) (x : Held) → 1 ≤ s.capacity
        → held_at (ring_of s h) place ≡ Some x →
        IsArrival s h (number_at (ring_of s h) place) x }
{}
