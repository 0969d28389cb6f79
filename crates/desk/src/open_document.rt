//! One open document, its revision and its last edits. What it answers to an op is in that op's file.
ghost use Rattle.std.specs.Prelude.{◌≡◌, ◌≤◌, true, length, Ok, None, IfOk, OnErr};
ghost use Rattle.piece_rope.specs.Edits.{open_fault};
ghost use Rattle.desk.specs.Documents.{Gives, edited_reply, entry, max_number, unless};
ghost use Rattle.desk.specs.Edits.{at_revision, edited, Makes};
ghost use Rattle.desk.specs.OpenDocuments.{IsIdle, entry_of, opened_entry};
ghost use Rattle.desk.specs.{Accepted.is_accepted, declared.ops.Reply.TheVariants.Edited};

use crate::edit::Edit;
use crate::fault::Fault;
use crate::log::Log;
use crate::max_number::MAX_NUMBER;
use crate::ops::Reply;
use crate::reply::EditedReply;
use decoder_core::meter;
use enc_names::Setting;
use index_loader::Indexes;
use piece_rope::Doc;
use std::alloc::Global;

/// A document, its revision and its last edits.
#[derive(Drop)]
pub struct OpenDocument<'i> {
    /// The document as it is now.
    pub document: Doc<'i>,
    /// The setting by which its bytes are read; the document returns a part of it.
    pub setting: Setting,
    /// The revision: that of the open or adoption, plus one for each accepted edit.
    pub revision: u64,
    /// The parts that each of the last edits left unchanged.
    pub log: Log,
}

impl<'i> OpenDocument<'i> {
    /// Opens a document of these bytes, at a revision. The entry, or the fault, is that of the
    /// definition (`entry`). The document has these index files, and no edit of several parts is
    /// under way (`idle`). It has this setting (`setting`) and this revision (`revision`).
    pub fn open(
        alloc: Global,
        indexes: &'i Indexes,
        setting: Setting,
        bytes: &[u8],
        revision: u64,
    ) -> Result<OpenDocument<'i>, Fault>
        ensures entry { Gives (unless (open_fault indexes.now setting.given bytes.now) (entry setting bytes.now revision)) (opened_entry result) }
        ensures idle { IfOk result (IsIdle indexes.now) }
        ensures setting { IfOk result (λ k. (k.document.setting ≡ k.setting) × (k.setting ≡ setting)) }
        ensures revision { IfOk result (λ k. k.revision ≡ revision) }
    {
        let (given, bom) = (setting.given, setting.bom);
        let log = Log::new(alloc)?;
        match Doc::open(alloc, indexes, given, bom, bytes, &mut meter()) {
            Ok(document) => Ok(OpenDocument {
                document,
                setting,
                revision,
                log,
            }),
            Err(cause) => Err(Fault::from(cause)),
        }
    }
}

impl OpenDocument<'_> {
    /// Makes an edit, or changes nothing. An edit raises the revision by one and is added to the
    /// log. The reply and the document after it are those of the definition (`step`). A reply that
    /// isn't a fault reports the edit as accepted (`accepted`). The index files (`indexes`) and the
    /// setting (`setting`) are unchanged. Afterwards no edit of several parts is under way
    /// (`idle`), and the revision is still at most 2^53 - 1 (`revision`). A fault leaves the
    /// document unchanged (`err`).
    pub fn edit<E: Edit>(&mut self, alloc: Global, edit: &E) -> Result<Reply, Fault>
        requires { self.old.document.earlier ≡ None }
        ensures step { Makes
            (edited self.old.document.indexes (E.named edit.now) (E.applied edit.now) (E.leaves edit.now) E.answer (entry_of self.old))
            result (entry_of self.new) }
        ensures accepted { IfOk result (λ reply. is_accepted reply ≡ true) }
        ensures indexes { self.new.document.indexes ≡ self.old.document.indexes }
        ensures idle { self.new.document.earlier ≡ None }
        ensures setting { (self.new.document.setting ≡ self.old.document.setting) × (self.new.setting ≡ self.old.setting) }
        ensures revision { self.old.revision ≤ max_number → self.new.revision ≤ max_number }
        ensures err { OnErr result (self.new ≡ self.old) }
    {
        self.check_revision(edit.rev())?;
        let before = byte_count(&self.document);
        let done = edit.apply(alloc, &mut self.document)?;
        self.revision += 1;
        self.log.push(edit.untouched(&done, before));
        Ok(edit.reply(&done, &self.document, self.revision))
    }

    /// Whether an edit may be made: it names the revision now, and that can be raised.
    fn check_revision(&self, rev: u64) -> Result<(), Fault>
        ensures { result ≡ at_revision (entry_of self.now) rev (Ok tt) }
    {
        if rev != self.revision {
            return Err(Fault::Stale { rev: self.revision });
        }
        if self.revision >= MAX_NUMBER {
            return Err(Fault::RevisionsSpent);
        }
        Ok(())
    }
}

/// The number of bytes of a document, which fits in 32 bits (`Doc::law_bounds`).
pub(crate) fn byte_count(document: &Doc<'_>) -> u32
    ensures { result ≡ length document.now.bytes }
{
    document.law_bounds();
    document.lengths().bytes as u32
}

/// The reply to an open or a splice that left this document, at this revision.
pub(crate) fn edited_reply(document: &Doc<'_>, rev: u64) -> EditedReply
    ensures { Edited result ≡ edited_reply document.now rev }
{
    EditedReply {
        bom: document.bom_len(),
        encoding: document.encoding(),
        rev,
    }
}
