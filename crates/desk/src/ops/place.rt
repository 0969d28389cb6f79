//! The op `place`.
ghost use Rattle.std.specs.Prelude.{◌≡◌, ◌≤◌, length, IfOk};
ghost use Rattle.piece_rope.specs.Document.{text_of};
ghost use Rattle.desk.specs.Place.{offset_named};

use crate::place_unit::PlaceUnit;
use crate::question::{Fault, Global, Labels, OpenDocument, Question, Reply};
use piece_rope::{Doc, Visits};
use position_map::{PosFault, Unit, byte_to_scalar, convert, scalar_to_place};
use sum_tree::visits;

/// Returns an offset in all units, and the byte range of the code point there.
#[derive(Clone, Copy)]
pub struct Place<'a> {
    /// The document's name.
    pub doc: &'a str,
    /// Unit of `value`.
    pub unit: PlaceUnit,
    /// The offset, in that unit.
    pub value: u64,
}

/// The reply to `place`.
#[derive(Clone, Copy)]
pub struct PlaceReply {
    /// The document's revision.
    pub rev: u64,
    /// Byte range of the code point at the offset; `null` at the text's end.
    pub place: Option<enc_names::Place>,
    /// The offset, in bytes of UTF-8.
    pub utf8: u64,
    /// The offset, in code units of UTF-16.
    pub utf16: u64,
    /// The offset, in code points.
    pub utf32: u64,
}

impl Question for Place<'_> {
    ghost use Rattle.desk.specs.Commands.{Place};

    ghost asked = { λ q. Place q.unit q.value };

    fn ask(&self, _: Global, _: &Labels, opened: &OpenDocument<'_>) -> Result<Reply, Fault> {
        let document = &opened.document;
        let mut visits = visits();
        let offset = offset_named(document, self.unit, self.value, &mut visits)?;
        Ok(Reply::Place(PlaceReply {
            rev: opened.revision,
            place: scalar_to_place(document, offset, &mut visits),
            utf8: convert(document, offset, Unit::Utf32, Unit::Utf8, &mut visits)?,
            utf16: convert(document, offset, Unit::Utf32, Unit::Utf16, &mut visits)?,
            utf32: offset,
        }))
    }
}

/// The offset that a value names, in code points.
fn offset_named(
    document: &Doc<'_>,
    unit: PlaceUnit,
    value: u64,
    visits: &mut Visits,
) -> Result<u64, PosFault>
    ensures offset { result ≡ offset_named document.now unit value }
    ensures within { IfOk result (λ n. n ≤ length (text_of document.now)) }
{
    match unit {
        PlaceUnit::Byte => byte_to_scalar(document, value, visits),
        PlaceUnit::Text(unit) => convert(document, value, unit, Unit::Utf32, visits),
    }
}
