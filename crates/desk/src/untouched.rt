//! The part of a document that an edit leaves unchanged, and the splice that results.
ghost use Rattle.std.specs.Prelude.{◌≡◌};
ghost use Rattle.desk.specs.Log.{all_untouched, both_untouched, patch_of, untouched_by};

/// The bytes that an edit, or several in sequence, found and left unchanged. They are counted from both
/// ends; a document has at most 16,777,216 bytes.
#[derive(Clone, Copy, PartialEq, Eq, Debug)]
pub struct Untouched {
    /// The bytes of the document before.
    pub before: u32,
    /// The number of leading bytes that are still there.
    pub front: u32,
    /// The number of trailing bytes that are still there.
    pub back: u32,
}

/// A splice: at byte `at`, `ins` bytes replaced `del` bytes.
#[derive(Clone, Copy, PartialEq, Eq, Debug)]
pub struct Patch {
    /// Offset of the splice.
    pub at: u32,
    /// Number of bytes removed.
    pub del: u32,
    /// Number of bytes inserted.
    pub ins: u32,
}

impl Untouched {
    /// All of a document of `bytes` bytes.
    pub(crate) fn all(bytes: u32) -> Untouched
        ensures { result ≡ all_untouched bytes }
    {
        Untouched {
            before: bytes,
            front: bytes,
            back: bytes,
        }
    }

    /// All bytes except `del` bytes starting at `at`, of a document of `before` bytes, if `ins`
    /// bytes replaced these. If none came in or went out, all bytes.
    pub(crate) fn by_splice(at: u64, del: u64, ins: usize, before: u32) -> Untouched
        ensures { result ≡ untouched_by at del ins before }
    {
        if del == 0 && ins == 0 {
            return Untouched::all(before);
        }
        let bytes = u64::from(before);
        Untouched {
            before,
            front: at.min(bytes) as u32,
            back: bytes.saturating_sub(at).saturating_sub(del) as u32,
        }
    }

    /// The part that this edit and a later one both left unchanged.
    pub(crate) fn and(self, later: Untouched) -> Untouched
        ensures { result ≡ both_untouched self later }
    {
        Untouched {
            before: self.before,
            front: self.front.min(later.front),
            back: self.back.min(later.back),
        }
    }

    /// The splice that leads to a document of `now` bytes.
    pub(crate) fn patch(self, now: u32) -> Patch
        ensures { result ≡ patch_of now self }
    {
        let del = self
            .before
            .saturating_sub(self.front)
            .saturating_sub(self.back);
        let ins = now.saturating_sub(self.front).saturating_sub(self.back);
        let changes = del > 0 || ins > 0;
        Patch {
            at: if changes { self.front } else { 0 },
            del,
            ins,
        }
    }
}
