//! The op `diagnostics`.
ghost use Rattle.std.specs.Prelude.{◌≡◌};
ghost use Rattle.desk.specs.Diagnostics.{first_error};

use crate::page_start::PageStart;
use crate::question::{Fault, Global, Labels, OpenDocument, Question, Reply};
use crate::reply::ReplyList;
use piece_rope::{Doc, Visits};
use position_map::{Diagnostic, Unit, first_error_from, list_diagnostics};
use sum_tree::visits;

/// Returns a page of a document's errors with their positions (LSP 3.17, "Diagnostic").
#[derive(Clone, Copy)]
pub struct Diagnostics<'a> {
    /// The document's name.
    pub doc: &'a str,
    /// Number of the first error, or the line to start at, both counted from 0.
    pub start: PageStart,
    /// The most errors to return.
    pub max: u64,
    /// Unit in which the positions' characters are counted.
    pub unit: Unit,
}

/// The reply to `diagnostics`.
#[derive(Drop)]
pub struct DiagnosticsReply {
    /// The document's revision.
    pub rev: u64,
    /// Number of errors in the document.
    pub total: u64,
    /// The errors, each `[from, to, line, character, line, character]`.
    pub diagnostics: ReplyList<Diagnostic>,
}

impl Question for Diagnostics<'_> {
    ghost use Rattle.desk.specs.Commands.{Diagnostics};

    ghost asked = { λ q. Diagnostics q.start q.max q.unit };

    fn ask(&self, alloc: Global, _: &Labels, opened: &OpenDocument<'_>) -> Result<Reply, Fault> {
        let document = &opened.document;
        let total = document.lengths().errors;
        let mut visits = visits();
        let from = first_error(document, self.start, &mut visits);
        if from > total {
            return Err(Fault::OutOfRange);
        }
        let page = list_diagnostics(alloc, document, from, self.max, self.unit, &mut visits)?;
        Ok(Reply::Diagnostics(DiagnosticsReply {
            rev: opened.revision,
            total,
            diagnostics: ReplyList::new(page),
        }))
    }
}

/// The number of the first error of a page.
fn first_error(document: &Doc<'_>, start: PageStart, visits: &mut Visits) -> u64
    ensures { result ≡ first_error document.now start }
{
    match start {
        PageStart::Number(number) => number,
        PageStart::Line(line) => first_error_from(document, line, visits),
    }
}
