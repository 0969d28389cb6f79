//! The op `replace`.
ghost use Rattle.std.specs.Prelude.{◌≡◌};
ghost use Rattle.position_map.specs.Plan.{Given};
ghost use Rattle.desk.specs.Change.{alone, change_leaves, change_reply, substituted};
ghost use Rattle.desk.specs.{Commands.asked, Desk.Decides, Documents.reply_of};
ghost use Rattle.desk.specs.declared.ops.Command.TheVariants as commands;

use crate::base64_text::bytes_of;
use crate::desk::Desk;
use crate::edit::Edit;
use crate::fault::Fault;
use crate::ops::change::{changed_reply, substitute};
use crate::ops::{ContentChange, Reply};
use crate::untouched::Untouched;
use piece_rope::Doc;
use position_map::{Insertion, Plan, Range, Unit};
use std::alloc::Global;

/// Replaces a range of a document's text by given bytes, if they decode to a given text there.
#[derive(Clone, Copy)]
pub struct Replace<'a> {
    /// The document's name.
    pub doc: &'a str,
    /// The document's current revision.
    pub rev: u64,
    /// Unit in which the range's characters are counted.
    pub unit: Unit,
    /// The range to replace; the whole text if absent or `null`.
    pub range: Option<Range>,
    /// The new text.
    pub text: &'a str,
    /// Its bytes, in base64.
    pub bytes: &'a str,
}

impl Desk<'_> {
    /// Replaces a range of the document's text by given bytes, and without a range all of it.
    pub(crate) fn replace(&mut self, replace: &Replace<'_>) -> Result<Reply, Fault>
        ensures { Decides self.old (asked (commands.Replace replace.now)) (reply_of result) self.new }
    {
        let bytes = bytes_of(self.alloc, replace.bytes)?;
        let read = ReadReplace {
            rev: replace.rev,
            unit: replace.unit,
            range: replace.range,
            text: replace.text,
            bytes: bytes.as_slice(),
        };
        self.documents.edit(self.alloc, replace.doc, &read)
    }
}

/// A `Replace` whose bytes are read from their base64.
#[derive(Clone, Copy)]
struct ReadReplace<'a> {
    rev: u64,
    unit: Unit,
    range: Option<Range>,
    text: &'a str,
    bytes: &'a [u8],
}

impl Edit for ReadReplace<'_> {
    type Done = Plan;

    ghost named = { λ r. r.rev };

    ghost applied = { λ r d. alone (substituted r.unit r.range r.text.now (Given r.bytes.now) d) };

    ghost leaves = { λ _. change_leaves };

    ghost answer = { change_reply };

    fn rev(&self) -> u64 {
        self.rev
    }

    fn apply(&self, alloc: Global, document: &mut Doc<'_>) -> Result<Plan, Fault> {
        let (range, text) = (self.range, self.text);
        let change = ContentChange { range, text };
        let given = Insertion::Bytes(self.bytes);
        let plan = substitute(alloc, document, self.unit, change, given)?;
        Ok(plan)
    }

    fn untouched(&self, done: &Plan, before: u32) -> Untouched {
        Untouched::by_splice(done.at, done.del, done.ins.as_slice().len(), before)
    }

    fn reply(&self, done: &Plan, document: &Doc<'_>, rev: u64) -> Reply {
        changed_reply(done, document, rev)
    }
}
