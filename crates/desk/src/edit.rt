//! Edits of a document: one form for all of them.
ghost use Rattle.std.specs.Prelude.{◌≡◌, ℕ, true, None, OnErr, Result};
ghost use Rattle.piece_rope.specs.Document.{Document};
ghost use Rattle.desk.specs.{Accepted.is_accepted, Edits.Applied, Edits.Applies, declared.fault.Fault.Fault, declared.ops.Reply.Reply};
ghost use Rattle.desk.specs.declared.untouched.Untouched.{Untouched};

use crate::fault::Fault;
use crate::ops::Reply;
use crate::untouched::Untouched;
use piece_rope::Doc;
use std::alloc::Global;

/// An edit. It knows a document and neither its name, its revision nor its log, which
/// `OpenDocument::edit` checks, raises and adds to. Contracts see the revision that it names, what it
/// does to a document, what it leaves of the bytes there, and its reply.
pub trait Edit {
    /// The result of the edit, as far as its reply reports it.
    type Done: Drop;

    ghost named: { Self → ℕ };

    ghost applied: { Self → Document → Result (Applied Self.Done) Fault };

    ghost leaves: { Self → Self.Done → ℕ → Untouched };

    ghost answer: { Self.Done → Document → ℕ → Reply };

    /// The revision that the edit names.
    fn rev(&self) -> u64
        ensures { result ≡ named self.now };

    /// Changes a document, or leaves it unchanged. The result and the document after it are those
    /// of the definition (`step`); its index files (`indexes`) and its setting (`setting`) are
    /// unchanged. No edit of several parts is under way before the call or after it (`idle`). A
    /// fault leaves the document unchanged (`err`).
    fn apply(&self, alloc: Global, document: &mut Doc<'_>) -> Result<Self::Done, Fault>
        requires { document.old.earlier ≡ None }
        ensures step { Applies (applied self.now document.old) result document.new }
        ensures indexes { document.new.indexes ≡ document.old.indexes }
        ensures idle { document.new.earlier ≡ None }
        ensures setting { document.new.setting ≡ document.old.setting }
        ensures err { OnErr result (document.new ≡ document.old) };

    /// The part of the document that the edit left unchanged. The document had `before` bytes.
    fn untouched(&self, done: &Self::Done, before: u32) -> Untouched
        ensures { result ≡ leaves self.now done.now before };

    /// The reply to the edit that left this document, at this revision (`reply`). It reports the
    /// edit as accepted (`accepted`).
    fn reply(&self, done: &Self::Done, document: &Doc<'_>, rev: u64) -> Reply
        ensures reply { result ≡ answer done.now document.now rev }
        ensures accepted { is_accepted result ≡ true };
}
