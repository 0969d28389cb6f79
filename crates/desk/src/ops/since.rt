//! The op `since`.
ghost use Rattle.std.specs.Prelude.{◌≡◌, ◌+◌};
ghost use Rattle.desk.specs.Since.{patch_since, range_around, scalar_behind};
ghost use Rattle.desk.specs.OpenDocuments.{entry_of};

use crate::open_document::{OpenDocument, byte_count};
use crate::question::{Fault, Global, Labels, Question, Reply};
use crate::untouched::Patch;
use piece_rope::{Doc, Visits};
use position_map::{PosFault, Range, Unit, byte_to_scalar, scalar_to_place, to_position};
use sum_tree::visits;

/// Returns the splice that leads from an earlier revision to the one now.
#[derive(Clone, Copy)]
pub struct Since<'a> {
    /// The document's name.
    pub doc: &'a str,
    /// The earlier revision; at most the current one.
    pub rev: u64,
    /// Unit in which positions are counted; without it the reply has none.
    pub unit: Option<Unit>,
}

/// The reply to `since`.
#[derive(Clone, Copy)]
pub struct SinceReply {
    /// The splice; the inserted bytes are those that the document now has there.
    pub patch: Patch,
    /// Range of the inserted bytes in the current text: `start` is the last boundary between code points at
    /// or before them, `end` the first at or after them.
    pub range: Option<Range>,
    /// The document's revision.
    pub rev: u64,
}

impl Question for Since<'_> {
    ghost use Rattle.desk.specs.Commands.{Since};

    ghost asked = { λ q. Since q.rev q.unit };

    fn ask(&self, _: Global, _: &Labels, opened: &OpenDocument<'_>) -> Result<Reply, Fault> {
        let patch = opened.patch_since(self.rev)?;
        let range = match self.unit {
            Some(unit) => Some(range_around(&opened.document, unit, patch, &mut visits())?),
            None => None,
        };
        Ok(Reply::Since(SinceReply {
            patch,
            range,
            rev: opened.revision,
        }))
    }
}

impl OpenDocument<'_> {
    /// The splice from the bytes at a revision to those now, by what the edits since have left.
    fn patch_since(&self, rev: u64) -> Result<Patch, Fault>
        ensures { result ≡ patch_since (entry_of self.now) rev }
    {
        if rev > self.revision {
            return Err(Fault::OutOfRange);
        }
        let known = self.log.len() as u64;
        let edits = self.revision - rev;
        if edits > known {
            return Err(Fault::Forgotten {
                rev: self.revision.saturating_sub(known),
            });
        }
        let bytes = byte_count(&self.document);
        Ok(self.log.last(edits as usize, bytes).patch(bytes))
    }
}

/// The range from the last boundary between code points at or before the bytes of a splice to the
/// first at or after them.
fn range_around(
    document: &Doc<'_>,
    unit: Unit,
    patch: Patch,
    visits: &mut Visits,
) -> Result<Range, PosFault>
    ensures { result ≡ range_around document.now unit patch }
{
    let (at, ins) = (u64::from(patch.at), u64::from(patch.ins));
    let before = byte_to_scalar(document, at, visits)?;
    let start = to_position(document, before, unit, visits)?;
    let behind = scalar_behind(document, at + ins, visits)?;
    let end = to_position(document, behind, unit, visits)?;
    Ok(Range { start, end })
}

/// The number of code points before the first boundary between code points at or after a byte.
fn scalar_behind(document: &Doc<'_>, at: u64, visits: &mut Visits) -> Result<u64, PosFault>
    ensures { result ≡ scalar_behind document.now at }
{
    let before = byte_to_scalar(document, at, visits)?;
    match scalar_to_place(document, before, visits) {
        Some(place) if place.from < at => byte_to_scalar(document, place.to, visits),
        _ => Ok(before),
    }
}
