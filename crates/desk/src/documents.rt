//! The open documents by their names.
ghost use Rattle.std.specs.Prelude.{◌≡◌, ◌<◌, ◌≤◌, true, IfOk, IfSome, OnOk, OnErr, is_some, string_bytes};
ghost use Rattle.std.specs.Str.{is_utf8};
ghost use Rattle.std.specs.FinMap as map;
ghost use Rattle.desk.specs.Desk.{IsOutcome, has_place, max_documents, outcome};
ghost use Rattle.desk.specs.Documents.{edit_reply, max_number, reply_of};
ghost use Rattle.desk.specs.Effects.{of_document, put, replied};
ghost use Rattle.desk.specs.OpenDocuments.{AllOpened, IsAdmitted, entry_of, names};
ghost use Rattle.desk.specs.{Accepted.is_accepted, Close.closed, Commands.answer, Edits.edited, Held.IsAdoptable, Held.held_at, Open.admitted};
ghost use Rattle.index_loader.specs.Files.{Files, has_files};

use crate::edit::Edit;
use crate::fault::Fault;
use crate::held::Held;
use crate::open_document::{OpenDocument, edited_reply};
use crate::ops::Reply;
use crate::question::Question;
use enc_names::{Encoding, Labels, Setting};
use index_loader::Indexes;
use std::alloc::{AllocError, Global};
use std::collections::BTreeMap;
use std::marker::Model;

/// The most documents that may be open.
pub(crate) const MAX_DOCUMENTS: usize = 64;

/// The open documents, all of them with the same index files. Contracts see the index files and
/// the finite map from names.
#[derive(Drop)]
pub struct Documents<'i> {
    indexes: &'i Indexes,
    named: BTreeMap<String, OpenDocument<'i>>,
}

impl<'i> Model for Documents<'i> {
    ghost use Rattle.desk.specs.{Shelf.Shelf, Codes.shelf_code};

    ghost Value = { Shelf };

    ghost coded = { shelf_code };

    ghost use Rattle.std.specs.Prelude.{◌≤◌, length};
    ghost use Rattle.desk.specs.{Desk.max_documents, OpenDocuments.AllOpened, OpenDocuments.names};

    ghost view = { λ d. record { indexes = d.indexes.now; named = names d.named.entries } };

    ghost invariant = { λ d. AllOpened d.indexes.now d.named.entries × (length d.named.entries ≤ max_documents) };
}

impl<'i> Documents<'i> {
    /// No document, and the index files for those to come.
    pub fn new(alloc: Global, indexes: &'i Indexes) -> Documents<'i>
        ensures { result ≡ record { indexes = indexes.now; named = map.empty } }
    {
        Documents {
            indexes,
            named: BTreeMap::new(alloc),
        }
    }

    /// Whether documents can be opened in this encoding.
    pub fn decodes(&self, encoding: Encoding) -> bool
        ensures { result ≡ has_files self.now.indexes encoding }
    {
        self.indexes.has(encoding)
    }

    /// Whether a document has this name.
    pub fn has(&self, name: &str) -> bool
        ensures { result ≡ is_some (map.get self.now.named name.now) }
    {
        self.named.contains_key(name)
    }

    /// Asks a question of the document of this name.
    pub fn ask<Q: Question>(
        &self,
        alloc: Global,
        labels: &Labels,
        name: &str,
        question: &Q,
    ) -> Result<Reply, Fault>
        ensures { IsOutcome
            (outcome self.now.named name.now
            (of_document (map.get self.now.named name.now) (λ h. replied (answer self.now.indexes labels.now h (Q.asked question.now)))))
            (reply_of result) self.now.named self.now.named }
    {
        match self.named.get(name) {
            Some(found) => question.ask(alloc, labels, found),
            None => Err(Fault::NoDocument),
        }
    }

    /// Puts a document at a revision under a free name. The reply and the documents after it are
    /// those of the definition (`step`). A reply that isn't a fault reports the document as
    /// accepted (`accepted`). The index files are unchanged (`indexes`).
    pub fn open(
        &mut self,
        alloc: Global,
        name: &str,
        setting: Setting,
        bytes: &[u8],
        revision: u64,
    ) -> Result<Reply, Fault>
        requires free { map.get self.old.named name.now ≡ None }
        requires revision { revision ≤ max_number }
        ensures step { IsOutcome
            (outcome self.old.named name.now
            (put (edit_reply self.old.indexes) (admitted self.old.indexes (has_place self.old.named) setting bytes.now revision)))
            (reply_of result) self.old.named self.new.named }
        ensures accepted { IfOk result (λ reply. is_accepted reply ≡ true) }
        ensures indexes { self.new.indexes ≡ self.old.indexes }
    {
        if !self.indexes.has(setting.given) {
            return Err(Fault::NoIndex);
        }
        if self.len() >= MAX_DOCUMENTS {
            return Err(Fault::TooManyDocuments);
        }
        let name = String::from_str(alloc, name)?;
        let opened = OpenDocument::open(alloc, self.indexes, setting, bytes, revision)?;
        let reply = edited_reply(&opened.document, opened.revision);
        self.insert(name, opened)?;
        Ok(Reply::Edited(reply))
    }

    /// Makes an edit of the document of this name. The reply and the documents after it are those
    /// of the definition (`step`). The index files are unchanged (`indexes`).
    pub fn edit<E: Edit>(&mut self, alloc: Global, name: &str, edit: &E) -> Result<Reply, Fault>
        ensures step { IsOutcome
            (outcome self.old.named name.now
            (of_document (map.get self.old.named name.now) (edited self.old.indexes (E.named edit.now) (E.applied edit.now) (E.leaves edit.now) E.answer)))
            (reply_of result) self.old.named self.new.named }
        ensures indexes { self.new.indexes ≡ self.old.indexes }
    {
        let Some(found) = self.named.get_mut(name) else {
            return Err(Fault::NoDocument);
        };
        found.edit(alloc, edit)
    }

    /// Removes the document of this name. The reply and the documents after it are those of the
    /// definition (`step`). The index files are unchanged (`indexes`).
    pub fn close(&mut self, name: &str) -> Result<Reply, Fault>
        ensures step { IsOutcome
            (outcome self.old.named name.now (of_document (map.get self.old.named name.now) closed))
            (reply_of result) self.old.named self.new.named }
        ensures indexes { self.new.indexes ≡ self.old.indexes }
    {
        let Some(closed) = self.named.remove(name) else {
            return Err(Fault::NoDocument);
        };
        Ok(Reply::Closed {
            rev: closed.revision,
        })
    }

    /// The document with this number, if there is one, ordered by the names' bytes (`held`). Its
    /// name is UTF-8 (`name`), and another desk with the same index files could adopt it
    /// (`adoptable`).
    pub fn held(&self, number: usize) -> Option<Held<'_, 'i>>
        ensures held { result ≡ held_at self.now.named number }
        ensures name { IfSome result (λ d. is_utf8 d.0 ≡ true) }
        ensures adoptable { IfSome result (λ d. IsAdoptable self.now.indexes d.1) }
    {
        match self.named.iter().nth(number) {
            Some((name, opened)) => {
                opened.document.law_bounds();
                Some(Held::new(name.as_str(), opened))
            }
            None => None,
        }
    }

    /// The number of open documents (`count`). It is at most 64 (`few`).
    pub fn len(&self) -> usize
        ensures count { result ≡ map.len self.now.named }
        ensures few { result ≤ max_documents }
    {
        self.named.len()
    }

    /// Puts a document, opened with the same index files, at its name.
    fn insert(&mut self, name: String, opened: OpenDocument<'i>) -> Result<(), AllocError>
        requires admitted { IsAdmitted self.old.indexes opened }
        requires few { map.len self.old.named < max_documents }
        ensures ok { OnOk result
            (self.new ≡ record { indexes = self.old.indexes; named = map.insert self.old.named (string_bytes name) (entry_of opened.entry) }) }
        ensures err { OnErr result (self.new ≡ self.old) }
    {
        // (no `?`: what the name had before, which is nothing, isn't passed on)
        let Ok(_) = self.named.insert(name, opened) else {
            return Err(AllocError);
        };
        Ok(())
    }
}
