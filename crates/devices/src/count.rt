//! A count for contracts.
ghost use Rattle.std.specs.Prelude.{◌≡◌, ◌+◌};

use std::snapshot::Snapshot;

/// The number of times that something happened. It has no limit and holds no bytes: only contracts
/// read it.
#[derive(Drop)]
pub enum Count {
    /// The count of something that never happened.
    Never,
    /// The count of something that happened once more than this.
    After(Snapshot<Count>),
}

impl Count {
    ghost use Rattle.devices.specs.Devices.{counted};

    /// Once more.
    pub fn next(&mut self)
        ensures { counted self.new ≡ counted self.old + 1 }
    {
        *self = Count::After(Snapshot::of(self));
    }
}
