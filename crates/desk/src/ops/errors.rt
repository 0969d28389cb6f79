//! The op `errors`.

use crate::question::{Fault, Global, Labels, OpenDocument, Question, Reply};
use crate::reply::ReplyList;
use enc_names::Place;

/// Returns a page of the places of a document's errors.
#[derive(Clone, Copy)]
pub struct Errors<'a> {
    /// The document's name.
    pub doc: &'a str,
    /// Number of the first error, counted from 0; at most `total`.
    pub from: u64,
    /// The most errors to return.
    pub max: u64,
}

/// The reply to `errors`.
#[derive(Drop)]
pub struct ErrorsReply {
    /// The document's revision.
    pub rev: u64,
    /// Number of errors in the document.
    pub total: u64,
    /// The errors' byte ranges, each `[from, to]`.
    pub places: ReplyList<Place>,
}

impl Question for Errors<'_> {
    ghost use Rattle.desk.specs.Commands.{Errors};

    ghost asked = { λ q. Errors q.from q.max };

    fn ask(&self, _: Global, _: &Labels, opened: &OpenDocument<'_>) -> Result<Reply, Fault> {
        let places = opened.document.errors(self.from, self.max)?;
        Ok(Reply::Errors(ErrorsReply {
            rev: opened.revision,
            total: opened.document.lengths().errors,
            places: ReplyList::new(places),
        }))
    }
}
