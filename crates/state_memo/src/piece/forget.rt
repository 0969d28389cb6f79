//! Forgetting what has no room.
ghost use Rattle.std.specs.Prelude.{◌≡◌, ◌≤◌, take, length};
ghost use Rattle.state_memo.specs.Memo.{fitting, spared};

use crate::piece::Piece;
use crate::slot::Slot;

impl Piece {
    /// Counts the leading outcomes that take at most `most` bytes of memory.
    fn count_fitting(&self, most: u64) -> usize
        ensures fitting { take result self.now.known ≡ fitting most self.now.known }
        ensures within { result ≤ length self.now.known }
    {
        let known = self.known.as_slice();
        let mut left = most;
        'known: for i in 0..known.len() {
            let memory = match &known[i] {
                Slot::Known(_, outcome) => outcome.memory(),
                Slot::Free => 0,
            };
            if memory > left {
                return i;
            }
            left -= memory;
        }
        known.len()
    }

    /// Forgets outcomes, the last first, but not the first one. It stops when one outcome is left or all
    /// take at most `most` bytes of memory.
    pub fn forget(&mut self, most: u64)
        ensures { self.new ≡ record { bytes = self.old.bytes; known = spared most self.old.known } }
    {
        let count = self.count_fitting(most);
        self.known.truncate(count.max(1));
    }
}
