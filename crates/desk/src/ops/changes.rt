//! The op `changes`.
ghost use Rattle.std.specs.Prelude.{◌≡◌, ◌<◌, ◌≤◌, ◌^◌, length, map, OnErr};
ghost use Rattle.desk.specs.Commands.{asked};
ghost use Rattle.desk.specs.Changes.{change_of, changed_from_none, changes_leave, changes_reply, one_more};
ghost use Rattle.desk.specs.{Desk.Decides, Documents.reply_of, Edits.Applies, Edits.OnlyBytes};
ghost use Rattle.desk.specs.declared.ops.Command.TheVariants as commands;

use crate::desk::Desk;
use crate::edit::Edit;
use crate::fault::Fault;
use crate::open_document::byte_count;
use crate::ops::Reply;
use crate::ops::change::make_change;
use crate::untouched::Untouched;
use enc_names::Encoding;
use piece_rope::Doc;
use position_map::{Plan, Range, Unit};
use std::alloc::Global;

/// One change of a list.
#[derive(Clone, Copy)]
pub struct ContentChange<'a> {
    /// The range to replace; the whole text if absent or `null`.
    pub range: Option<Range>,
    /// The new text.
    pub text: &'a str,
}

/// Makes a list of changes of a document's text, each on the result of the one before; all of them
/// or none.
#[derive(Drop)]
pub struct Changes<'a> {
    /// The document's name.
    pub doc: &'a str,
    /// The document's current revision.
    pub rev: u64,
    /// Unit in which the ranges' characters are counted.
    pub unit: Unit,
    /// The changes, each on the result of the one before.
    pub changes: Vec<ContentChange<'a>>,
}

/// The number of changes made one after the other, and what they left untouched.
#[derive(Clone, Copy)]
pub struct MadeChanges {
    /// How many changes were made.
    pub count: u64,
    /// What all of them left untouched.
    pub untouched: Untouched,
}

impl MadeChanges {
    /// With one more, made in a document of `before` bytes.
    fn and(self, plan: &Plan, before: u32) -> MadeChanges
        requires { self.count < 2 ^ 63 }
        ensures { result ≡ one_more self before plan.now }
    {
        let untouched = Untouched::by_splice(plan.at, plan.del, plan.ins.as_slice().len(), before);
        MadeChanges {
            count: self.count + 1,
            untouched: self.untouched.and(untouched),
        }
    }
}

/// The reply to a list of changes.
#[derive(Clone, Copy)]
pub struct ChangesReply {
    /// Number of changes in the list.
    pub applied: u64,
    /// Length of the document's BOM in bytes.
    pub bom: u64,
    /// The effective encoding.
    pub encoding: Encoding,
    /// The revision after the command.
    pub rev: u64,
}

impl Desk<'_> {
    /// Makes all changes of a list, under one revision more, or none of them.
    pub(crate) fn changes(&mut self, changes: &Changes<'_>) -> Result<Reply, Fault>
        ensures { Decides self.old (asked (commands.Changes changes.now)) (reply_of result) self.new }
    {
        self.documents.edit(self.alloc, changes.doc, changes)
    }
}

impl Edit for Changes<'_> {
    type Done = MadeChanges;

    ghost named = { λ c. c.rev };

    ghost applied = { λ c. changed_from_none c.unit (map change_of c.changes.items) };

    ghost leaves = { λ _. changes_leave };

    ghost answer = { changes_reply };

    fn rev(&self) -> u64 {
        self.rev
    }

    // One change is made or refused as a whole. Of more, those before one that is refused are taken
    // back.
    fn apply(&self, alloc: Global, document: &mut Doc<'_>) -> Result<MadeChanges, Fault> {
        let changes = self.changes.as_slice();
        if changes.len() <= 1 {
            return make_changes(alloc, document, self.unit, changes);
        }
        document.begin();
        let made = make_changes(alloc, document, self.unit, changes);
        match made {
            Ok(_) => document.commit(),
            Err(_) => document.roll_back(),
        }
        made
    }

    fn untouched(&self, done: &MadeChanges, _: u32) -> Untouched {
        done.untouched
    }

    fn reply(&self, done: &MadeChanges, document: &Doc<'_>, rev: u64) -> Reply {
        Reply::Changes(ChangesReply {
            applied: done.count,
            bom: document.bom_len(),
            encoding: document.encoding(),
            rev,
        })
    }
}

/// Makes changes one after another, up to the first that is refused.
fn make_changes(
    alloc: Global,
    document: &mut Doc<'_>,
    unit: Unit,
    changes: &[ContentChange<'_>],
) -> Result<MadeChanges, Fault>
    ensures step { Applies (changed_from_none unit (map change_of changes.now) document.old) result document.new }
    ensures kept { OnlyBytes document.old document.new }
    ensures few { length changes.now ≤ 1 → OnErr result (document.new ≡ document.old) }
{
    let mut made = MadeChanges {
        count: 0,
        untouched: Untouched::all(byte_count(document)),
    };
    'changes: for change in changes {
        let before = byte_count(document);
        match make_change(alloc, document, unit, change.range, change.text) {
            Ok(plan) => made = made.and(&plan, before),
            Err(cause) => return Err(Fault::in_change(made.count, cause)),
        }
    }
    Ok(made)
}
