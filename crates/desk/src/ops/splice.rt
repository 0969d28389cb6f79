//! The op `splice`.
ghost use Rattle.std.specs.Prelude.{◌≡◌};
ghost use Rattle.desk.specs.Splice.{spliced, splice_leaves, splice_reply};
ghost use Rattle.desk.specs.{Commands.asked, Desk.Decides, Documents.reply_of};
ghost use Rattle.desk.specs.declared.ops.Command.TheVariants as commands;

use crate::base64_text::bytes_of;
use crate::desk::Desk;
use crate::edit::Edit;
use crate::fault::Fault;
use crate::open_document::edited_reply;
use crate::ops::Reply;
use crate::untouched::Untouched;
use decoder_core::meter;
use piece_rope::Doc;
use std::alloc::Global;

/// Replaces bytes of a document.
#[derive(Clone, Copy)]
pub struct Splice<'a> {
    /// The document's name.
    pub doc: &'a str,
    /// The document's current revision.
    pub rev: u64,
    /// Offset of the first byte to replace.
    pub at: u64,
    /// Number of bytes to remove.
    pub del: u64,
    /// The bytes to insert, in base64.
    pub bytes: &'a str,
}

impl Desk<'_> {
    /// Replaces `del` bytes, starting at byte `at`.
    pub(crate) fn splice(&mut self, splice: &Splice<'_>) -> Result<Reply, Fault>
        ensures { Decides self.old (asked (commands.Splice splice.now)) (reply_of result) self.new }
    {
        let ins = bytes_of(self.alloc, splice.bytes)?;
        let read = ReadSplice {
            rev: splice.rev,
            at: splice.at,
            del: splice.del,
            ins: ins.as_slice(),
        };
        self.documents.edit(self.alloc, splice.doc, &read)
    }
}

/// A splice whose bytes are read from their base64.
#[derive(Clone, Copy)]
struct ReadSplice<'a> {
    rev: u64,
    at: u64,
    del: u64,
    ins: &'a [u8],
}

impl Edit for ReadSplice<'_> {
    type Done = ();

    ghost named = { λ s. s.rev };

    ghost applied = { λ s. spliced s.at s.del s.ins.now };

    ghost leaves = { λ s. splice_leaves s.at s.del s.ins.now };

    ghost answer = { splice_reply };

    fn rev(&self) -> u64 {
        self.rev
    }

    fn apply(&self, _: Global, document: &mut Doc<'_>) -> Result<(), Fault> {
        document.splice(self.at, self.del, self.ins, &mut meter())?;
        Ok(())
    }

    fn untouched(&self, _: &(), before: u32) -> Untouched {
        Untouched::by_splice(self.at, self.del, self.ins.len(), before)
    }

    fn reply(&self, _: &(), document: &Doc<'_>, rev: u64) -> Reply {
        Reply::Edited(edited_reply(document, rev))
    }
}
