//! The longest wait of each poll, for contracts.
ghost use Rattle.std.specs.Prelude.{◌≡◌, ◌∷◌, [], ◌++◌};

use std::snapshot::Snapshot;
use std::time::Duration;

/// The longest wait of each call that asks the system for events, in order. The list takes no
/// memory: only contracts read it.
#[derive(Drop)]
pub enum Polls {
    /// There was no call.
    Empty,
    /// The last call, after the earlier ones.
    Then(Snapshot<Polls>, Snapshot<Option<Duration>>),
}

impl Polls {
    ghost use Rattle.serving.specs.Polls.{nanos, waits_of};

    /// Adds one more call.
    pub fn push(&mut self, most: Option<Duration>)
        ensures { waits_of self.new ≡ waits_of self.old ++ nanos most ∷ [] }
    {
        *self = Polls::Then(Snapshot::of(self), Snapshot::of(&most));
    }
}
