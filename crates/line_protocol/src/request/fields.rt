//! The fields of an object, each by its kind. An absent field and one of another kind are alike.
ghost use Rattle.std.specs.Prelude.{◌≡◌, option_map};
ghost use Rattle.line_protocol.specs.Parsed.{parsed_data};
ghost use Rattle.line_protocol.specs.Fields.{number_at, text_at, name_at, bom_at, text_mode_at, encode_mode_at, as_unit};
ghost use Rattle.line_protocol.specs.Fields.{unit_at, optional_unit_at, place_unit_at, page_start_at, position_at, range_at};

use crate::request::field::Field;
use crate::request::parsed::Parsed;
use desk::{MAX_NUMBER, PageStart, PlaceUnit, TextMode};
use enc_names::Bom;
use encoders::EncodeMode;
use position_map::{Position, Range, Unit};

/// The most places of errors, or lines, that one request may ask for.
pub(crate) const MAX_ENTRIES: u64 = 10_000;

/// The most bytes of a document's name.
const MAX_NAME_LEN: usize = 64;

/// A whole number up to `most`, written without fraction, exponent or minus sign.
pub(crate) fn number(value: Parsed<'_>, name: &str, most: u64) -> Option<u64>
    ensures { result ≡ number_at (parsed_data value.entry) name.now most }
{
    let number = value.get(name)?.as_u64()?;
    if number <= most { Some(number) } else { None }
}

/// A text.
pub(crate) fn text<'a>(value: Parsed<'a>, name: &str) -> Option<&'a str>
    ensures { option_map (λ t. t.now) result ≡ text_at (parsed_data value.entry) name.now }
{
    value.get(name)?.as_str()
}

/// The name of a document: a text of 1 to 64 bytes.
pub(crate) fn name(value: Parsed<'_>) -> Option<&str>
    ensures { option_map (λ t. t.now) result ≡ name_at (parsed_data value.entry) }
{
    let name = text(value, "doc")?;
    if name.is_empty() || name.len() > MAX_NAME_LEN {
        return None;
    }
    Some(name)
}

/// Reads how to treat a byte order mark. If the field is absent, the mark is looked for.
pub(crate) fn bom(value: Parsed<'_>) -> Option<Bom>
    ensures { result ≡ bom_at (parsed_data value.entry) }
{
    let Some(bom) = value.get("bom") else {
        return Some(Bom::Sniff);
    };
    match bom.as_str()? {
        "sniff" => Some(Bom::Sniff),
        "keep" => Some(Bom::Keep),
        _ => None,
    }
}

/// Reads the mode of a text: replacement if the field is absent.
pub(crate) fn text_mode(value: Parsed<'_>) -> Option<TextMode>
    ensures { result ≡ text_mode_at (parsed_data value.entry) }
{
    let Some(mode) = value.get("mode") else {
        return Some(TextMode::Replacement);
    };
    match mode.as_str()? {
        "replacement" => Some(TextMode::Replacement),
        "fatal" => Some(TextMode::Fatal),
        _ => None,
    }
}

/// Reads the mode of an encoding: fatal if the field is absent.
pub(crate) fn encode_mode(value: Parsed<'_>) -> Option<EncodeMode>
    ensures { result ≡ encode_mode_at (parsed_data value.entry) }
{
    let Some(mode) = value.get("mode") else {
        return Some(EncodeMode::Fatal);
    };
    match mode.as_str()? {
        "fatal" => Some(EncodeMode::Fatal),
        "html" => Some(EncodeMode::Html),
        _ => None,
    }
}

/// The unit of this name in LSP.
fn named_unit(name: &str) -> Option<Unit>
    ensures { result ≡ as_unit name.now }
{
    match name {
        "utf-8" => Some(Unit::Utf8),
        "utf-16" => Some(Unit::Utf16),
        "utf-32" => Some(Unit::Utf32),
        _ => None,
    }
}

/// Reads the unit of a position: UTF-16 if the field is absent.
pub(crate) fn unit(value: Parsed<'_>) -> Option<Unit>
    ensures { result ≡ unit_at (parsed_data value.entry) }
{
    let Some(unit) = value.get("unit") else {
        return Some(Unit::Utf16);
    };
    named_unit(unit.as_str()?)
}

/// Reads the unit of positions: if the field is absent, none are wanted.
pub(crate) fn optional_unit(value: Parsed<'_>) -> Option<Option<Unit>>
    ensures { result ≡ optional_unit_at (parsed_data value.entry) }
{
    let Some(unit) = value.get("unit") else {
        return Some(None);
    };
    let unit = named_unit(unit.as_str()?)?;
    Some(Some(unit))
}

/// Reads the unit of a value: bytes of the document, or units of its text.
pub(crate) fn place_unit(value: Parsed<'_>) -> Option<PlaceUnit>
    ensures { result ≡ place_unit_at (parsed_data value.entry) }
{
    match text(value, "unit")? {
        "byte" => Some(PlaceUnit::Byte),
        name => named_unit(name).map(PlaceUnit::Text),
    }
}

/// Reads the start of a page of errors: a number, or a line if that is given instead. Otherwise it
/// returns the faulty one of the two fields.
pub(crate) fn page_start(value: Parsed<'_>) -> Result<PageStart, Field>
    ensures { result ≡ page_start_at (parsed_data value.entry) }
{
    if value.get("line").is_none() {
        let from = number(value, "from", MAX_NUMBER).ok_or(Field::From)?;
        return Ok(PageStart::Number(from));
    }
    if value.get("from").is_some() {
        return Err(Field::Line);
    }
    let line = number(value, "line", MAX_NUMBER).ok_or(Field::Line)?;
    Ok(PageStart::Line(line))
}

/// A position: a line and a character, both whole numbers.
fn position(value: Parsed<'_>, name: &str) -> Option<Position>
    ensures { result ≡ position_at (parsed_data value.entry) name.now }
{
    let position = value.get(name)?;
    let line = number(position, "line", MAX_NUMBER)?;
    let character = number(position, "character", MAX_NUMBER)?;
    Some(Position { line, character })
}

/// Reads the range of a change. If the field is absent or null, there is no range, which means the
/// whole text.
pub(crate) fn range(value: Parsed<'_>) -> Option<Option<Range>>
    ensures { result ≡ range_at (parsed_data value.entry) }
{
    let Some(range) = value.get("range") else {
        return Some(None);
    };
    if range.is_null() {
        return Some(None);
    }
    let start = position(range, "start")?;
    let end = position(range, "end")?;
    Some(Some(Range { start, end }))
}
