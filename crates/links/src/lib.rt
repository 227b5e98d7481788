//! Wires joined by links: drivers, feeds, and when a routing is clean. There is no code but laws, each the
//! contract of a function with an empty body.
#![tactic(auto)]

ghost use Rattle.links.specs.Links.{Below, Counting, Fed, Feeds, IsClean, Routing};
ghost use Rattle.std.specs.Prelude.{List, ◌↔◌, ◌≡◌, ◌⊎◌, ℕ};
ghost use Rattle.words.specs.Members.{In};

/// The wires below a wire can be listed.
pub fn below_is_listed()
    ensures { (r : Routing) (w : ℕ) → (vs : List ℕ) × ((v : ℕ) → In vs v ↔ Below r w v) }
{}

/// A wire is below another, or it isn't.
pub fn below_is_decided()
    ensures { (r : Routing) (w v : ℕ) → Below r w v ⊎ (Below r w v → ⊥) }
{}

/// A wire has a feed, or it has none.
pub fn fed_is_decided()
    ensures { (r : Routing) (w : ℕ) → Fed r w ⊎ (Fed r w → ⊥) }
{}

/// A wire is a counting driver of another, or it isn't.
pub fn counting_is_decided()
    ensures { (r : Routing) (x w : ℕ) → Counting r x w ⊎ (Counting r x w → ⊥) }
{}

/// In a clean routing a wire has one feed at most.
pub fn one_feed()
    ensures { (r : Routing) → IsClean r → (c d w : ℕ) → Feeds r c w → Feeds r d w → c ≡ d }
{}

/// In a clean routing a wire has just one counting driver, or it has none.
pub fn one_driver()
    ensures { (r : Routing) → IsClean r → (w : ℕ)
        → ((x : ℕ) × (Counting r x w × ((y : ℕ) → Counting r y w → y ≡ x))) ⊎ ((x : ℕ) → Counting r x w → ⊥) }
{}

/// A cell output that feeds a wire is that wire, or it feeds a counting driver of it.
pub fn fed_by_driver()
    ensures { (r : Routing) (c w : ℕ) → Feeds r c w → (c ≡ w) ⊎ ((x : ℕ) × (Counting r x w × Feeds r c x)) }
{}
