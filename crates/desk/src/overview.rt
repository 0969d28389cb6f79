//! Questions about the desk as a whole, which name no document.
ghost use Rattle.std.specs.Prelude.{◌≡◌, IfOk};
ghost use Rattle.desk.specs.Overview.{overview_of};

use crate::desk::Desk;
use crate::ops::{DocumentsReply, HelloReply};
use std::alloc::AllocError;

/// A question about the desk as a whole.
#[derive(Clone, Copy, PartialEq, Eq, Debug)]
pub enum Overview {
    /// Returns which documents are open.
    Documents,
    /// Returns what the desk can do.
    Hello,
}

/// The answer to a question about the desk as a whole.
#[derive(Drop)]
pub enum OverviewReply<'d, 'i> {
    /// The open documents.
    Documents(DocumentsReply<'d, 'i>),
    /// What the desk can do.
    Hello(HelloReply),
}

impl<'i> Desk<'i> {
    /// Answers a question about the desk as a whole.
    ///
    /// # Errors
    ///
    /// Memory ran out for the answer's list.
    pub fn overview(&self, question: Overview) -> Result<OverviewReply<'_, 'i>, AllocError>
        ensures { IfOk result (λ reply. reply ≡ overview_of self.now question) }
    {
        match question {
            Overview::Documents => Ok(OverviewReply::Documents(self.list_documents()?)),
            Overview::Hello => Ok(OverviewReply::Hello(self.hello()?)),
        }
    }
}
