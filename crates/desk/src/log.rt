//! The last edits of a document.
ghost use Rattle.std.specs.Prelude.{◌≡◌, ◌≤◌, [], length, IfOk};
ghost use Rattle.desk.specs.Log.{all_leave, last_of, logged};

use crate::untouched::Untouched;
use circular_buffer::HeapCircularBuffer;
use std::alloc::{AllocError, Global};
use std::marker::Model;

/// The most edits of a log.
pub(crate) const LOG_LENGTH: usize = 1024;

/// The parts that each of a document's last edits left unchanged, oldest first. Its memory is
/// allocated when it is made, so no edit allocates any. Contracts see the list.
#[derive(Drop)]
pub struct Log {
    edits: HeapCircularBuffer<Untouched>,
}

impl Model for Log {
    ghost use Rattle.std.specs.Prelude.{◌≡◌, List};
    ghost use Rattle.desk.specs.{Log.log_length, declared.untouched.Untouched.Untouched};

    ghost Value = { List Untouched };

    ghost view = { λ l. l.edits.items };

    ghost invariant = { λ l. l.edits.capacity ≡ log_length };
}

impl Log {
    /// The log of a document without an edit.
    pub fn new(alloc: Global) -> Result<Log, AllocError>
        ensures { IfOk result (λ log. log ≡ []) }
    {
        let edits = HeapCircularBuffer::with_capacity(alloc, LOG_LENGTH)?;
        Ok(Log { edits })
    }

    /// The number of its edits.
    pub fn len(&self) -> usize
        ensures { result ≡ length self.now }
    {
        self.edits.len()
    }

    /// Adds an edit, for which the first one goes where the log is full.
    pub fn push(&mut self, edit: Untouched)
        ensures { self.new ≡ logged self.old edit }
    {
        self.edits.push_back(edit);
    }

    /// The part that the last `count` edits left unchanged. The last of them left a document of
    /// `bytes` bytes.
    pub fn last(&self, count: usize, bytes: u32) -> Untouched
        requires { count ≤ length self.now }
        ensures { result ≡ all_leave bytes (last_of count self.now) }
    {
        let mut left = Untouched::all(bytes);
        'edits: for number in 0..count {
            let Some(edit) = self.edits.nth_back(number) else {
                return left;
            };
            left = edit.and(left);
        }
        left
    }
}
