//! Bytes for contracts.
ghost use Rattle.std.specs.Prelude.{◌≡◌, ◌∷◌, [], ◌++◌};

use std::snapshot::Snapshot;

/// Bytes that were read or written, in their order. It has no limit and takes no memory: only
/// contracts read it.
#[derive(Drop)]
pub enum History {
    /// There were none.
    Empty,
    /// A history in which this byte follows the others.
    Then(Snapshot<History>, Snapshot<u8>),
}

impl History {
    ghost use Rattle.devices.specs.Histories.{bytes_of};

    /// One more byte.
    fn push(&mut self, byte: u8)
        ensures { bytes_of self.new ≡ bytes_of self.old ++ byte ∷ [] }
    {
        *self = History::Then(Snapshot::of(self), Snapshot::of(&byte));
    }

    /// Adds these bytes. The loop is for contracts, and does nothing: a build leaves it out.
    pub fn extend(&mut self, bytes: &[u8])
        ensures { bytes_of self.new ≡ bytes_of self.old ++ bytes.now }
    {
        for byte in bytes {
            self.push(*byte);
        }
    }
}
