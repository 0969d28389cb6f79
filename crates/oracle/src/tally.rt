//! Counts of what was compared.
ghost use Rattle.std.specs.Prelude.{◌≡◌, ◌≢◌, ◌+◌, ◌-◌, ◌<◌, ◌≤◌, ◌^◌, ℕ, min, true, false, slice_index, if◌then◌else◌};

/// The number of comparisons that failed, and of things of each kind. The program that compares
/// defines the kinds, and how many of each it needs.
#[derive(Clone, Copy)]
pub struct Tally<const KINDS: usize> {
    /// The comparisons that came out otherwise than they had to.
    pub different: u64,
    /// The things of each kind.
    pub seen: [u64; KINDS],
}

impl<const KINDS: usize> Tally<KINDS> {
    /// Nothing yet.
    pub fn new() -> Tally<KINDS> {
        Tally {
            different: 0,
            seen: [0; KINDS],
        }
    }

    /// Counts a comparison that succeeded or failed (`different`). The kinds are unchanged
    /// (`seen`).
    pub fn compare(&mut self, same: bool)
        ensures different { self.new.different ≡ (if same then self.old.different else min (self.old.different + 1) (2 ^ 64 - 1)) }
        ensures seen { self.new.seen ≡ self.old.seen }
    {
        if !same {
            self.different = self.different.saturating_add(1);
        }
    }

    /// Counts a thing of a kind, if there is a kind with this number (`counted`). The other kinds
    /// (`others`) and the comparisons (`different`) are unchanged.
    pub fn count(&mut self, kind: usize)
        ensures counted { kind < KINDS → slice_index self.new.seen kind ≡ min (slice_index self.old.seen kind + 1) (2 ^ 64 - 1) }
        ensures others { (k : ℕ) → k ≢ kind → slice_index self.new.seen k ≡ slice_index self.old.seen k }
        ensures different { self.new.different ≡ self.old.different }
    {
        if kind < KINDS {
            self.seen[kind] = self.seen[kind].saturating_add(1);
        }
    }

    /// Whether every comparison succeeded (`same`) with enough of each kind (`enough`). Only then
    /// the comparisons show something, and then always (`only`).
    pub fn is_telling(&self, least: &[u64; KINDS]) -> bool
        ensures same { result ≡ true → self.now.different ≡ 0 }
        ensures enough { result ≡ true → (k : ℕ) → k < KINDS → slice_index least.now k ≤ slice_index self.now.seen k }
        ensures only { self.now.different ≡ 0 → ((k : ℕ) → k < KINDS → slice_index least.now k ≤ slice_index self.now.seen k) → result ≡ true }
    {
        for kind in 0..KINDS {
            if self.seen[kind] < least[kind] {
                return false;
            }
        }
        self.different == 0
    }
}
