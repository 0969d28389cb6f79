//! The op `lines`.
ghost use Rattle.std.specs.Prelude.{◌≡◌, ℕ, ◌+◌, ◌*◌, ◌^◌, ◌<◌, ◌≤◌, length, IfOk};
ghost use Rattle.piece_rope.specs.Document.{text_of};
ghost use Rattle.position_map.specs.Whole.{pieces_most};
ghost use Rattle.desk.specs.Lines.{page_of};

use crate::line::Line;
use crate::question::{Fault, Global, Labels, OpenDocument, Question, Reply};
use crate::reply::ReplyList;
use piece_rope::{Doc, Visits};
use position_map::{LineCursor, line_count};
use std::alloc::AllocError;
use sum_tree::visits;

/// Returns a page of a document's lines.
#[derive(Clone, Copy)]
pub struct Lines<'a> {
    /// The document's name.
    pub doc: &'a str,
    /// Number of the first line, counted from 0; at most `count`.
    pub from: u64,
    /// The most lines to return.
    pub max: u64,
}

/// The reply to `lines`.
#[derive(Drop)]
pub struct LinesReply {
    /// The document's revision.
    pub rev: u64,
    /// Number of lines in the text.
    pub count: u64,
    /// The lines, each `[start, end]` in code points.
    pub lines: ReplyList<Line>,
}

impl Question for Lines<'_> {
    ghost use Rattle.desk.specs.Commands.{Lines};

    ghost asked = { λ q. Lines q.from q.max };

    fn ask(&self, alloc: Global, _: &Labels, opened: &OpenDocument<'_>) -> Result<Reply, Fault> {
        let document = &opened.document;
        let count = line_count(document);
        if self.from > count {
            return Err(Fault::OutOfRange);
        }
        let lines = page(alloc, document, self.from, self.max, &mut visits())?;
        Ok(Reply::Lines(LinesReply {
            rev: opened.revision,
            count,
            lines: ReplyList::new(lines),
        }))
    }
}

/// At most `max` lines of a document from number `from` on, each found from the one before.
fn page(
    alloc: Global,
    document: &Doc<'_>,
    from: u64,
    max: u64,
    visits: &mut Visits,
) -> Result<Vec<Line>, AllocError>
    ensures page { IfOk result (λ lines. lines.items ≡ page_of (text_of document.now) from max) }
    ensures most { IfOk result (λ lines. (d : ℕ) → pieces_most document.now < 2 ^ d → visits.new ≤ visits.old + (length lines.items + 1) * (2 * (d + 2))) }
{
    let count = max.min(line_count(document).saturating_sub(from));
    let mut lines = Vec::with_capacity(alloc, count as usize)?;
    let mut cursor = LineCursor::at(document, from, visits);
    'lines: for _ in 0..count {
        let Some((start, end)) = cursor.next(visits) else {
            return Ok(lines);
        };
        lines.push(Line { start, end })?;
    }
    Ok(lines)
}
