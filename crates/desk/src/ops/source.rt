//! The op `source`.

use crate::question::{Fault, Global, Labels, OpenDocument, Question, Reply};
use crate::reply::{BytesReply, ReplyList};

/// Returns bytes of a document as they are.
#[derive(Clone, Copy)]
pub struct Source<'a> {
    /// The document's name.
    pub doc: &'a str,
    /// Offset of the first byte.
    pub at: u64,
    /// Number of bytes.
    pub len: u64,
}

impl Question for Source<'_> {
    ghost use Rattle.desk.specs.Commands.{Source};

    ghost asked = { λ q. Source q.at q.len };

    fn ask(&self, _: Global, _: &Labels, opened: &OpenDocument<'_>) -> Result<Reply, Fault> {
        let bytes = opened.document.source(self.at, self.len)?;
        Ok(Reply::Bytes(BytesReply {
            rev: opened.revision,
            bytes: ReplyList::new(bytes),
        }))
    }
}
