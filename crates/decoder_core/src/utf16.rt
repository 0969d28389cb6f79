//! The UTF-16BE and UTF-16LE decoders.
ghost use Rattle.std.specs.Prelude.{◌≡◌, ◌≤◌, [], ◌∷◌, IfSome};
ghost use Rattle.std.proofs.Common.{rules};
ghost use Rattle.decoder_core.specs.Utf16.{utf16, utf16_start, utf16_single, utf16_second, unit_of};
ghost use Rattle.decoder_core.specs.{Steps.bytes_of, Holding.falls_of, Holding.counts_of, Utf16Laws.utf16_holding};

use crate::bulk::{Bulk, NO_BULK};
use crate::few::Few;
use crate::forms::{finish, give, give_one, hold, restore};
use crate::handler::{Handled, Handler};
use crate::item::Item;
use crate::utf16_bulk::utf16_bulk;
use std::marker::Model;

/// The byte of a 16-bit unit that comes first.
#[derive(Clone, Copy, PartialEq, Eq, Debug)]
pub enum ByteOrder {
    /// The high byte, as in UTF-16BE.
    BigEndian,
    /// The low byte, as in UTF-16LE.
    LittleEndian,
}

/// The state of a UTF-16 decoder between two bytes. Contracts see the Standard's two values.
#[derive(Clone, Copy, PartialEq, Eq, Debug)]
pub struct Utf16State {
    lead_byte: Option<u8>,
    lead_surrogate: Option<u16>,
}

impl Model for Utf16State {
    ghost use Rattle.std.specs.Prelude.{◌≤◌, IfSome};
    ghost use Rattle.decoder_core.specs.Utf16.{Utf16};

    ghost Value = { Utf16 };

    ghost view = { λ s. record { lead_byte = s.lead_byte; lead_surrogate = s.lead_surrogate } };

    ghost invariant = { λ s. IfSome s.lead_surrogate (λ unit. 0xD800 ≤ unit × unit ≤ 0xDBFF) };

    ghost inverse = { λ s. record { lead_byte = s.lead_byte; lead_surrogate = s.lead_surrogate } };
}

impl Utf16State {
    /// Nothing is pending.
    fn idle() -> Utf16State
        ensures { result ≡ utf16_start }
    {
        Utf16State {
            lead_byte: None,
            lead_surrogate: None,
        }
    }
}

/// The UTF-16BE or UTF-16LE decoder (Encoding Standard, "shared UTF-16 decoder"), without a byte
/// order mark.
#[derive(Clone, Copy, PartialEq, Eq, Debug)]
pub struct Utf16Decoder {
    /// The order of the bytes of each unit.
    pub order: ByteOrder,
}

impl Handler for Utf16Decoder {
    type State = Utf16State;

    ghost table = { λ d. utf16 d.order };

    ghost initial = { λ _. utf16_start };

    fn start_state(&self) -> Utf16State {
        Utf16State::idle()
    }

    #[inline(always)]
    fn take_bulk(&self, state: Utf16State, bytes: &[u8], text: &mut [u8; 1024]) -> Bulk {
        if state == Utf16State::idle() {
            utf16_bulk(self.order, bytes, text)
        } else {
            NO_BULK
        }
    }

    // In the loop over the bytes.
    #[inline(always)]
    fn turn(&self, state: Utf16State, byte: Option<u8>) -> Handled<Utf16State> {
        match (state.lead_byte, state.lead_surrogate, byte) {
            (None, None, None) => finish(Utf16State::idle()),
            (_, _, None) => give(Utf16State::idle(), Item::Error),
            (None, lead_surrogate, Some(byte)) => hold(Utf16State {
                lead_byte: Some(byte),
                lead_surrogate,
            }),
            (Some(first), None, Some(byte)) => single(unit(self.order, first, byte)),
            (Some(first), Some(lead), Some(byte)) => {
                second(lead, unit(self.order, first, byte), Few::Two(first, byte))
            }
        }
    }

    ghost ends = { λ d. falls_of _ (utf16_holding d.order) };

    ghost counts = { λ d. counts_of _ (utf16_holding d.order) };

    ghost exact = { Prim.search rules };
}

/// The unit of two bytes.
fn unit(order: ByteOrder, first: u8, second: u8) -> u16
    ensures { result ≡ unit_of order first second }
{
    let (high, low) = match order {
        ByteOrder::BigEndian => (first, second),
        ByteOrder::LittleEndian => (second, first),
    };
    u16::from(high) * 0x100 + u16::from(low)
}

/// A unit with no lead surrogate held.
fn single(unit: u16) -> Handled<Utf16State>
    ensures state { result.state ≡ (utf16_single unit).state }
    ensures answer { result.answer ≡ (utf16_single unit).answer }
    ensures back { bytes_of result.back ≡ (utf16_single unit).back }
{
    match unit {
        0xD800..=0xDBFF => hold(Utf16State {
            lead_byte: None,
            lead_surrogate: Some(unit),
        }),
        0xDC00..=0xDFFF => give(Utf16State::idle(), Item::Error),
        _ => give_one(Utf16State::idle(), u32::from(unit)),
    }
}

/// A unit after a lead surrogate, and its bytes.
fn second(lead: u16, unit: u16, bytes: Few) -> Handled<Utf16State>
    requires least { 0xD800 ≤ lead }
    requires most { lead ≤ 0xDBFF }
    ensures state { result.state ≡ (utf16_second lead unit (bytes_of bytes)).state }
    ensures answer { result.answer ≡ (utf16_second lead unit (bytes_of bytes)).answer }
    ensures back { bytes_of result.back ≡ (utf16_second lead unit (bytes_of bytes)).back }
{
    match unit {
        0xDC00..=0xDFFF => {
            let code_point = 0x1_0000 + u32::from(lead - 0xD800) * 0x400 + u32::from(unit - 0xDC00);
            give_one(Utf16State::idle(), code_point)
        }
        _ => restore(Utf16State::idle(), Item::Error, bytes),
    }
}
