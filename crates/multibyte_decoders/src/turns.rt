//! Turns that the decoders have in common.
ghost use Rattle.std.specs.Prelude.{◌≡◌};
ghost use Rattle.decoder_core.specs.Steps.{bytes_of};
ghost use Rattle.multibyte_decoders.specs.Pairs.{ascii_item, begins, completes, one_of};

use decoder_core::forms::{give, hold, restore, scalar};
use decoder_core::{Few, Handled, Item};
use enc_names::Scalar;

/// An ASCII byte is itself, and all else an error.
// In the loop over the bytes.
#[inline(always)]
pub(crate) fn ascii_item(byte: u8) -> Item
    ensures { result ≡ ascii_item byte }
{
    if byte <= 0x7F {
        Item::One(scalar(u32::from(byte)))
    } else {
        Item::Error
    }
}

/// A byte with no lead pending: a lead is held in the state `held`, and another byte is an item by
/// itself.
// In the loop over the bytes.
#[inline(always)]
pub(crate) fn begin<S: Copy>(idle: S, is_lead: bool, held: S, item: Item) -> Handled<S>
    ensures state { result.state ≡ (begins idle is_lead held item).state }
    ensures answer { result.answer ≡ (begins idle is_lead held item).answer }
    ensures back { bytes_of result.back ≡ (begins idle is_lead held item).back }
{
    if is_lead {
        hold(held)
    } else {
        give(idle, item)
    }
}

/// After the last byte of a sequence: its item, or else an error, which puts the byte back if it
/// is an ASCII byte.
// In the loop over the bytes.
#[inline(always)]
pub(crate) fn complete<S>(idle: S, item: Option<Item>, byte: u8) -> Handled<S>
    ensures state { result.state ≡ idle }
    ensures answer { result.answer ≡ (completes idle item byte).answer }
    ensures back { bytes_of result.back ≡ (completes idle item byte).back }
{
    match item {
        Some(item) => give(idle, item),
        None if byte <= 0x7F => restore(idle, Item::Error, Few::One(byte)),
        None => give(idle, Item::Error),
    }
}

/// An item of one code point, if there is one.
// In the loop over the bytes.
#[inline(always)]
pub(crate) fn one_of(found: Option<Scalar>) -> Option<Item>
    ensures { result ≡ one_of found }
{
    match found {
        Some(code_point) => Some(Item::One(code_point)),
        None => None,
    }
}
