//! Rows of bytes that are decoded: `ENCODING; BYTES -> EFFECTIVE; ITEMS`. After the encoding comes
//! `keep` if a byte order mark is kept, and after the effective encoding the length of the mark. An
//! item is its code points, or `error`, with its place.

use crate::fields;
use crate::unplayed::Unplayed;
use codec::{AnyDecoder, CodecFault, Decoded, decode_fatal, decode_whole};
use decoder_core::{Item, Placed, decode_parts, meter};
use enc_names::{Place, Setting};
use index_loader::Indexes;
use std::alloc::{AllocError, Global};

/// Decodes the bytes of a row, and writes the result.
pub fn outcome(alloc: Global, indexes: &Indexes, given: &str) -> Result<String, Unplayed> {
    let (words, bytes) = given.split_once("; ").ok_or(Unplayed::Malformed)?;
    let setting = fields::setting(words)?;
    let bytes = fields::bytes(alloc, bytes)?;
    match AnyDecoder::new(indexes, setting.given, setting.bom) {
        Some(decoder) => with_decoder(alloc, indexes, setting, &decoder, &bytes),
        None => Ok(without_decoder(alloc, indexes, setting, &bytes)?),
    }
}

/// Decodes bytes by this decoder, and writes the result.
fn with_decoder(
    alloc: Global,
    indexes: &Indexes,
    setting: Setting,
    decoder: &AnyDecoder<'_>,
    bytes: &[u8],
) -> Result<String, Unplayed> {
    let Setting { given, bom } = setting;
    let whole = decode_whole(alloc, indexes, given, bom, bytes)?;
    let items = decode_parts(alloc, decoder, bytes, whole.bom_len, &[], &mut meter())?;
    let fatal = decode_fatal(alloc, indexes, given, bom, bytes);
    Ok(compared(alloc, decoder, bytes, &whole, &fatal, &items)?)
}

/// The effective encoding and the items, if two parts give the same. The text, the errors and mode
/// fatal must be those of the items.
fn compared(
    alloc: Global,
    decoder: &AnyDecoder<'_>,
    bytes: &[u8],
    whole: &Decoded,
    fatal: &Result<String, CodecFault>,
    items: &[Placed],
) -> Result<String, AllocError> {
    if let Some(cut) = first_other_cut(alloc, decoder, bytes, whole.bom_len, items)? {
        return format!(in alloc; "other items where the bytes are cut at {cut}");
    }
    if agree(alloc, whole, fatal, items)? {
        written(alloc, whole, items)
    } else {
        String::from_str(alloc, "another text, or other errors, than the items'")
    }
}

/// Writes the result in an encoding that has no decoder: each call refuses the bytes.
fn without_decoder(
    alloc: Global,
    indexes: &Indexes,
    setting: Setting,
    bytes: &[u8],
) -> Result<String, AllocError> {
    let no_index = Some(CodecFault::NoIndex);
    let Setting { given, bom } = setting;
    let whole = decode_whole(alloc, indexes, given, bom, bytes).err();
    let fatal = decode_fatal(alloc, indexes, given, bom, bytes).err();
    if whole == no_index && fatal == no_index {
        String::from_str(alloc, "NoIndex")
    } else {
        String::from_str(alloc, "a text without a decoder")
    }
}

/// The first cut of the bytes in two parts at which these have other items.
fn first_other_cut(
    alloc: Global,
    decoder: &AnyDecoder<'_>,
    bytes: &[u8],
    from: u64,
    items: &[Placed],
) -> Result<Option<usize>, AllocError> {
    for cut in 0..bytes.len() {
        let parts = decode_parts(alloc, decoder, bytes, from, &[cut], &mut meter())?;
        if parts.as_slice() != items {
            return Ok(Some(cut));
        }
    }
    Ok(None)
}

/// Whether the text and the errors of the whole are those of the items. Mode fatal must return the
/// text, or the first error if there is one.
fn agree(
    alloc: Global,
    whole: &Decoded,
    fatal: &Result<String, CodecFault>,
    items: &[Placed],
) -> Result<bool, AllocError> {
    let text = text_of(alloc, items)?;
    let errors = errors_of(alloc, items)?;
    let strict = match (fatal, errors.first()) {
        (Ok(strict), None) => strict.as_str() == text.as_str(),
        (Err(CodecFault::Malformed(place)), Some(first)) => place == first,
        _ => false,
    };
    let same_text = whole.text.as_str() == text.as_str();
    Ok(strict && same_text && whole.errors.as_slice() == errors.as_slice())
}

/// The text of items.
fn text_of(alloc: Global, items: &[Placed]) -> Result<String, AllocError> {
    let mut text = String::new(alloc);
    for placed in items {
        put_text(&mut text, placed.item)?;
    }
    Ok(text)
}

/// Appends the text of an item to a text.
fn put_text(text: &mut String, item: Item) -> Result<(), AllocError> {
    match item {
        Item::One(c) => text.push(c.to_char()),
        Item::Two(first, second) => {
            text.push(first.to_char())?;
            text.push(second.to_char())
        }
        Item::Error => text.push('\u{FFFD}'),
    }
}

/// The places of the errors among items.
fn errors_of(alloc: Global, items: &[Placed]) -> Result<Vec<Place>, AllocError> {
    let mut errors = Vec::new(alloc);
    for Placed { item, from, to } in items {
        if let Item::Error = item {
            errors.push(Place {
                from: *from,
                to: *to,
            })?;
        }
    }
    Ok(errors)
}

/// The effective encoding, and the items.
fn written(alloc: Global, whole: &Decoded, items: &[Placed]) -> Result<String, AllocError> {
    let mut out = format!(in alloc; "{} {};", whole.encoding.name(), whole.bom_len)?;
    for placed in items {
        put_written(alloc, &mut out, placed)?;
    }
    Ok(out)
}

/// Appends a space and an item with its place to a text.
fn put_written(alloc: Global, out: &mut String, placed: &Placed) -> Result<(), AllocError> {
    let Placed { item, from, to } = *placed;
    let text = match item {
        Item::One(c) => format!(in alloc; " U+{:04X}[{from},{to})", c.get())?,
        Item::Two(a, b) => format!(in alloc; " U+{:04X}+U+{:04X}[{from},{to})", a.get(), b.get())?,
        Item::Error => format!(in alloc; " error[{from},{to})")?,
    };
    out.push_str(text.as_str())
}
