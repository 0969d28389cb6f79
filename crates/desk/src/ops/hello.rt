//! The op `hello`, of the desk as a whole.
ghost use Rattle.std.specs.Prelude.{◌≡◌, IfOk, filter};
ghost use Rattle.index_loader.specs.Files.{has_files};
ghost use Rattle.desk.specs.Overview.{hello_reply};

use crate::desk::Desk;
use crate::documents::MAX_DOCUMENTS;
use crate::log::LOG_LENGTH;
use crate::reply::ReplyList;
use enc_names::Encoding;
use piece_rope::DOCUMENT_LIMIT;
use std::alloc::AllocError;

/// The reply to `hello`.
#[derive(Drop)]
pub struct HelloReply {
    /// The most bytes of a document.
    pub bytes: usize,
    /// The most open documents.
    pub documents: usize,
    /// The most edits of a document's log.
    pub edits: usize,
    /// The encodings in which a document can be opened, in the order of the Encoding Standard.
    pub encodings: ReplyList<Encoding>,
}

impl Desk<'_> {
    /// The limits of documents, and what they can be opened in.
    pub(crate) fn hello(&self) -> Result<HelloReply, AllocError>
        ensures { IfOk result (λ reply. reply ≡ hello_reply self.now.indexes) }
    {
        Ok(HelloReply {
            bytes: DOCUMENT_LIMIT,
            documents: MAX_DOCUMENTS,
            edits: LOG_LENGTH,
            encodings: ReplyList::new(self.loaded_among(&Encoding::ALL)?),
        })
    }

    /// The encodings among these that have all their files loaded.
    fn loaded_among(&self, encodings: &[Encoding]) -> Result<Vec<Encoding>, AllocError>
        ensures { IfOk result (λ loaded. loaded.items ≡ filter (has_files self.now.indexes) encodings.now) }
    {
        let mut loaded = Vec::new(self.alloc);
        'encodings: for encoding in encodings {
            if self.documents.decodes(*encoding) {
                loaded.push(*encoding)?;
            }
        }
        Ok(loaded)
    }
}
