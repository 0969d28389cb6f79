//! The op `documents`, of the desk as a whole.
ghost use Rattle.std.specs.Prelude.{◌≡◌, IfOk};
ghost use Rattle.desk.specs.Overview.{documents_reply};

use crate::desk::Desk;
use crate::held::Held;
use crate::reply::ReplyList;
use std::alloc::AllocError;

/// The reply to `documents`.
#[derive(Drop)]
pub struct DocumentsReply<'d, 'i> {
    /// The open documents, in the order of their names' bytes.
    pub documents: ReplyList<Held<'d, 'i>>,
    /// Number of opens, edits and closes accepted so far.
    pub turn: u64,
}

impl<'i> Desk<'i> {
    /// The open documents, and the count of turns.
    pub(crate) fn list_documents(&self) -> Result<DocumentsReply<'_, 'i>, AllocError>
        ensures { IfOk result (λ reply. reply ≡ documents_reply self.now) }
    {
        let mut documents = Vec::new(self.alloc);
        'documents: for number in 0..self.len() {
            let Some(held) = self.held(number) else {
                unreachable!()
            };
            documents.push(held)?;
        }
        Ok(DocumentsReply {
            documents: ReplyList::new(documents),
            turn: self.turn,
        })
    }
}
