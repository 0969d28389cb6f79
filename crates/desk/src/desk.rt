//! The desk: what it holds, and what it answers, by the table of its ops.
ghost use Rattle.std.specs.Prelude.{◌≡◌, ◌≤◌, false, true, length, IfSome, Ok};
ghost use Rattle.std.specs.Str.{is_utf8};
ghost use Rattle.std.specs.FinMap as map;
ghost use Rattle.enc_names.specs.Settings.{setting_of};
ghost use Rattle.desk.specs.Desk.{Answers, Adopts, Decides, max_documents};
ghost use Rattle.desk.specs.{Accepted.reports_change, Commands.asked, Commands.question_of, Documents.max_number, Documents.reply_of};
ghost use Rattle.desk.specs.Held.{IsAdoptable, held_at};

use crate::documents::Documents;
use crate::fault::Fault;
use crate::held::Held;
use crate::ops::{Command, Reply};
use crate::question::Question;
use crate::turn::turn_after;
use decoder_core::OutOfMemory;
use enc_names::{Bom, Encoding, Labels, Setting};
use index_loader::Indexes;
use std::alloc::Global;
use std::marker::Model;

/// Named documents, with the labels and the index files by which they are opened. Contracts see a
/// finite map from names to the setting, the bytes and the revision, together with the labels, the
/// index files and the count of turns.
pub struct Desk<'i> {
    pub(crate) labels: Labels,
    pub(crate) documents: Documents<'i>,
    pub(crate) alloc: Global,
    pub(crate) turn: u64,
}

impl<'i> Model for Desk<'i> {
    ghost use Rattle.desk.specs.{Desk.Office, Codes.office_code};

    ghost Value = { Office };

    ghost coded = { office_code };

    ghost view = { λ d. record { indexes = d.documents.indexes; labels = d.labels; documents = d.documents.named; turn = d.turn } };
}

// Written out: if it is derived, each crate above proves again what becomes of all that is dropped.
impl Drop for Desk<'_> {
    fn drop(self) {
        let Desk {
            labels: _,
            documents: _,
            alloc: _,
            turn: _,
        } = self;
    }
}

impl<'i> Desk<'i> {
    /// A desk with these index files and labels, with no document, and with no turn.
    pub fn new(alloc: Global, indexes: &'i Indexes, labels: Labels) -> Result<Desk<'i>, OutOfMemory>
        ensures { result ≡ Ok (record { indexes = indexes.now; labels = labels; documents = map.empty; turn = 0 }) }
    {
        let documents = Documents::new(alloc, indexes);
        Ok(Desk {
            labels,
            documents,
            alloc,
            turn: 0,
        })
    }

    /// Opens a document of these bytes under a name, at a revision. The name has 1 to 64 bytes
    /// (`name`), and the revision is at most 2^53 - 1 (`revision`).
    ///
    /// # Errors
    ///
    /// `NameTaken`, `NoIndex`, `TooManyDocuments`, `TooLarge`, in this order, and `OutOfMemory`.
    pub fn adopt(
        &mut self,
        name: &str,
        given: Encoding,
        bom: Bom,
        bytes: &[u8],
        revision: u64,
    ) -> Result<(), Fault>
        requires name { (1 ≤ length name.now) × (length name.now ≤ 64) }
        requires revision { revision ≤ max_number }
        ensures { Adopts self.old name.now (setting_of given bom) bytes.now revision result self.new }
    {
        if self.documents.has(name) {
            return Err(Fault::NameTaken);
        }
        self.documents.open(self.alloc, name, Setting::new(given, bom), bytes, revision)?;
        Ok(())
    }

    /// The number of documents on the desk (`count`). It is at most 64 (`few`).
    pub fn len(&self) -> usize
        ensures count { result ≡ map.len self.now.documents }
        ensures few { result ≤ max_documents }
    {
        self.documents.len()
    }

    /// The document with this number, if there is one, in the order of names (`held`). Names are
    /// ordered by their bytes. Its name is UTF-8 (`name`). `adopt` would accept each of these
    /// documents, on another desk with the same index files (`adoptable`).
    pub fn held(&self, number: usize) -> Option<Held<'_, 'i>>
        ensures held { result ≡ held_at self.now.documents number }
        ensures name { IfSome result (λ d. is_utf8 d.0 ≡ true) }
        ensures adoptable { IfSome result (λ d. IsAdoptable self.now.indexes d.1) }
    {
        self.documents.held(number)
    }

    /// Answers one command. The reply and the desk after it are those of the definition, and an
    /// accepted open, edit or close is counted (`step`). The desk is unchanged unless the reply
    /// reports one (`kept`).
    pub fn answer(&mut self, command: &Command<'_>) -> Reply
        ensures step { Answers self.old (asked command.now) result self.new }
        ensures kept { reports_change result ≡ false → self.new ≡ self.old }
    {
        match self.decide(command) {
            Ok(reply) => {
                self.turn = turn_after(self.turn, &reply);
                reply
            }
            Err(fault) => Reply::Refused { fault },
        }
    }

    /// The answer to a question about the document of this name.
    pub(crate) fn ask<Q: Question>(&self, doc: &str, question: &Q) -> Result<Reply, Fault>
        ensures { Decides self.now (question_of doc.now (Q.asked question.now)) (reply_of result) self.now }
    {
        self.documents.ask(self.alloc, &self.labels, doc, question)
    }
}
