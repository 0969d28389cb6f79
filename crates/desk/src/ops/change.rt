//! The op `change`.
ghost use Rattle.std.specs.Prelude.{◌≡◌, OnErr};
ghost use Rattle.position_map.specs.Plan.{inserted_of};
ghost use Rattle.desk.specs.Change.{MakesChange, alone, changed, change_leaves, change_reply, substituted};
ghost use Rattle.desk.specs.{Commands.asked, Desk.Decides, Documents.reply_of, Edits.OnlyBytes};
ghost use Rattle.desk.specs.declared.ops.Command.TheVariants as commands;

use crate::change_cause::ChangeCause;
use crate::desk::Desk;
use crate::edit::Edit;
use crate::fault::Fault;
use crate::ops::{ContentChange, Reply};
use crate::untouched::Untouched;
use decoder_core::meter;
use enc_names::Encoding;
use piece_rope::Doc;
use position_map::{Insertion, Plan, Range, Unit, plan_change};
use std::alloc::Global;
use sum_tree::visits;

/// Replaces a range of a document's text (LSP 3.17, "TextDocumentContentChangeEvent").
#[derive(Clone, Copy)]
pub struct Change<'a> {
    /// The document's name.
    pub doc: &'a str,
    /// The document's current revision.
    pub rev: u64,
    /// Unit in which the range's characters are counted.
    pub unit: Unit,
    /// The range to replace; the whole text if absent or `null`.
    pub range: Option<Range>,
    /// The new text.
    pub text: &'a str,
}

/// The reply to a change.
#[derive(Clone, Copy)]
pub struct ChangeReply {
    /// Offset of the first inserted byte.
    pub at: u64,
    /// Length of the document's BOM in bytes.
    pub bom: u64,
    /// Number of bytes removed.
    pub del: u64,
    /// The effective encoding.
    pub encoding: Encoding,
    /// Number of bytes inserted.
    pub ins: u64,
    /// The revision after the command.
    pub rev: u64,
}

impl Desk<'_> {
    /// Puts a text in place of a range of the document's text, and without a range in place of all
    /// of it.
    pub(crate) fn change(&mut self, change: &Change<'_>) -> Result<Reply, Fault>
        ensures { Decides self.old (asked (commands.Change change.now)) (reply_of result) self.new }
    {
        self.documents.edit(self.alloc, change.doc, change)
    }
}

impl Edit for Change<'_> {
    type Done = Plan;

    ghost named = { λ c. c.rev };

    ghost applied = { λ c d. alone (changed c.unit c.range c.text.now d) };

    ghost leaves = { λ _. change_leaves };

    ghost answer = { change_reply };

    fn rev(&self) -> u64 {
        self.rev
    }

    fn apply(&self, alloc: Global, document: &mut Doc<'_>) -> Result<Plan, Fault> {
        let plan = make_change(alloc, document, self.unit, self.range, self.text)?;
        Ok(plan)
    }

    fn untouched(&self, done: &Plan, before: u32) -> Untouched {
        Untouched::by_splice(done.at, done.del, done.ins.as_slice().len(), before)
    }

    fn reply(&self, done: &Plan, document: &Doc<'_>, rev: u64) -> Reply {
        changed_reply(done, document, rev)
    }
}

/// The reply to a planned splice that was made, and left this document at this revision.
pub(crate) fn changed_reply(done: &Plan, document: &Doc<'_>, rev: u64) -> Reply
    ensures { result ≡ change_reply done.now document.now rev }
{
    Reply::Change(ChangeReply {
        at: done.at,
        bom: document.bom_len(),
        del: done.del,
        encoding: document.encoding(),
        ins: done.ins.as_slice().len() as u64,
        rev,
    })
}

/// Puts a text's bytes in place of a range of a document's text, and without a range in place of all
/// of it, or leaves the document unchanged.
pub(crate) fn make_change(
    alloc: Global,
    document: &mut Doc<'_>,
    unit: Unit,
    range: Option<Range>,
    text: &str,
) -> Result<Plan, ChangeCause>
    ensures step { MakesChange (changed unit range text.now document.old) result document.new }
    ensures kept { OnlyBytes document.old document.new }
    ensures err { OnErr result (document.new ≡ document.old) }
{
    let change = ContentChange { range, text };
    substitute(alloc, document, unit, change, Insertion::Text(text))
}

/// Puts in what stands for a change's text, or leaves the document unchanged. Nothing allocates
/// memory after the splice.
pub(crate) fn substitute(
    alloc: Global,
    document: &mut Doc<'_>,
    unit: Unit,
    change: ContentChange<'_>,
    insertion: Insertion<'_>,
) -> Result<Plan, ChangeCause>
    ensures step { MakesChange (substituted unit change.entry.range change.entry.text.now (inserted_of insertion.entry) document.old) result document.new }
    ensures kept { OnlyBytes document.old document.new }
    ensures err { OnErr result (document.new ≡ document.old) }
{
    let range = change.range;
    let plan = plan_change(alloc, document, range, unit, insertion, &mut visits())?;
    document.splice_kept(
        plan.at,
        plan.del,
        plan.ins.as_slice(),
        plan.i,
        plan.j,
        change.text,
        &mut meter(),
    )?;
    Ok(plan)
}
