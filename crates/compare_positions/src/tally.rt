//! The counts of comparisons.
ghost use Rattle.std.specs.Prelude.{◌≡◌, ◌≤◌, ◌+◌, ◌-◌, ◌^◌, true, min, max, slice_index, if◌then◌else◌};

use position_map::{Diagnostic, PosFault};

/// The most nodes that a call may visit in a document of any length.
const MOST_VISITED: u64 = 72;

/// The outcome of a call, as it is counted.
#[derive(Clone, Copy)]
enum CallKind {
    /// Calls of any kind.
    Call,
    /// The call was past the end.
    OutOfRange,
    /// The call was inside a code point.
    Split,
}

/// The least number of each kind.
const LEAST: [u64; 3] = [1000, 100, 0];

/// Counts of calls that were compared, and of the documents that they were made on.
#[derive(Clone, Copy)]
pub struct CallTally {
    /// The calls.
    pub calls: oracle::Tally<3>,
    /// The most nodes that one of them visited.
    pub visited: u64,
    /// The documents.
    pub documents: u64,
    /// Borders between pieces near which there were calls.
    pub borders: usize,
    /// The borders between CR and LF.
    pub cut: usize,
    /// Calls that found an error.
    pub errors: u64,
    /// The places of an error without bytes.
    pub empty: u64,
}

impl CallTally {
    /// Nothing yet.
    pub fn new() -> CallTally {
        CallTally {
            calls: oracle::Tally::new(),
            visited: 0,
            documents: 0,
            borders: 0,
            cut: 0,
            errors: 0,
            empty: 0,
        }
    }

    /// Counts a call (`calls`), by whether its answer is that of the plain computation
    /// (`different`). It counts a refusal, and the greatest number of visited nodes (`visited`).
    pub fn count(&mut self, same: bool, fault: Option<PosFault>, visited: u64)
        ensures calls { slice_index self.new.calls.seen 0 ≡ min (slice_index self.old.calls.seen 0 + 1) (2 ^ 64 - 1) }
        ensures different { self.new.calls.different ≡ (if same then self.old.calls.different else min (self.old.calls.different + 1) (2 ^ 64 - 1)) }
        ensures visited { self.new.visited ≡ max self.old.visited visited }
    {
        self.calls.compare(same);
        self.calls.count(CallKind::Call as usize);
        match fault {
            Some(PosFault::OutOfRange) => self.calls.count(CallKind::OutOfRange as usize),
            Some(PosFault::SplitsCharacter) => self.calls.count(CallKind::Split as usize),
            None => {}
        }
        self.visited = self.visited.max(visited);
    }

    /// Counts a document with its borders between pieces. `cut` of them are between CR and LF.
    pub fn pass(&mut self, borders: usize, cut: usize) {
        self.documents = self.documents.saturating_add(1);
        self.borders = self.borders.saturating_add(borders);
        self.cut = self.cut.saturating_add(cut);
    }

    /// Counts an error that was found or not, and whether it has bytes.
    pub fn pass_error(&mut self, found: Option<Diagnostic>) {
        let Some(Diagnostic { place, .. }) = found else {
            return;
        };
        self.errors = self.errors.saturating_add(1);
        if place.from == place.to {
            self.empty = self.empty.saturating_add(1);
        }
    }

    /// Whether the comparison shows something. Every answer was that of the plain computation
    /// (`same`), at few visits (`few`), for enough calls (`calls`) and enough refusals
    /// (`out_of_range`).
    pub fn is_telling(&self) -> bool
        ensures same { result ≡ true → self.now.calls.different ≡ 0 }
        ensures few { result ≡ true → self.now.visited ≤ 72 }
        ensures calls { result ≡ true → 1000 ≤ slice_index self.now.calls.seen 0 }
        ensures out_of_range { result ≡ true → 100 ≤ slice_index self.now.calls.seen 1 }
    {
        self.calls.is_telling(&LEAST) && self.visited <= MOST_VISITED
    }
}
