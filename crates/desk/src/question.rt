//! Questions about an open document: one form for all of them.
ghost use Rattle.desk.specs.{Commands.Question, Commands.answer, Documents.Gives, OpenDocuments.entry_of};

// What each question names, passed on from one place.
pub(crate) use crate::fault::Fault;
pub(crate) use crate::open_document::OpenDocument;
pub(crate) use crate::ops::Reply;
pub(crate) use enc_names::Labels;
pub(crate) use std::alloc::Global;

/// A question. Contracts see what is asked.
pub trait Question {
    ghost asked: { Self → Question };

    /// Asks an open document, and returns its answer.
    fn ask(&self, alloc: Global, labels: &Labels, opened: &OpenDocument<'_>) -> Result<Reply, Fault>
        ensures { Gives (answer opened.now.document.indexes labels.now (entry_of opened.now) (asked self.now)) result };
}
