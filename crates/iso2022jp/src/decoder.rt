//! The ISO-2022-JP decoder.
ghost use Rattle.std.specs.Prelude.{◌≡◌, ◌+◌, ◌*◌, ◌-◌, IfSome};
ghost use Rattle.index_loader.specs.Index.{code_point_of};
ghost use Rattle.decoder_core.specs.declared.item.Item.TheVariants.{One};
ghost use Rattle.decoder_core.specs.Steps.{bytes_of};
ghost use Rattle.decoder_core.specs.Holding.{falls_of, counts_of};
ghost use Rattle.iso2022jp.specs.Exact.{iso_2022_jp_exact};
ghost use Rattle.iso2022jp.specs.Iso2022Jp.{iso_2022_jp, iso_2022_jp_start, is_pair_byte, one_or_error, pair_item, ready_byte, escaped, state_end};
ghost use Rattle.iso2022jp.specs.Iso2022JpLaws.{iso_2022_jp_holding};

use crate::items::{ascii_item, katakana_item, one_or_error, roman_item};
use crate::output::{OutputState, escape_to};
use crate::state::{DecoderState, Iso2022JpState};
use decoder_core::forms::{finish, give, hold, restore};
use decoder_core::{AsciiRuns, Characters, Escape, Few, Handled, Handler, Item};
use enc_names::Scalar;
use index_loader::{FormedIndex, Index, Utf8Form};
use std::marker::Model;

/// The Standard's state lead byte.
const LEAD_BYTE: DecoderState = DecoderState::Ready(OutputState::Jis0208);

/// The ISO-2022-JP decoder (Encoding Standard, "ISO-2022-JP decoder"), which borrows index jis0208.
/// Contracts see the index.
#[derive(Drop)]
pub struct Iso2022JpDecoder<'i> {
    jis0208: FormedIndex<'i>,
}

impl<'i> Model for Iso2022JpDecoder<'i> {
    ghost use Rattle.index_loader.specs.Index.{Loaded};

    ghost Value = { Loaded };

    ghost view = { λ d. d.jis0208 };
}

impl<'i> Iso2022JpDecoder<'i> {
    /// The decoder over index jis0208.
    pub fn new(jis0208: &'i Index) -> Iso2022JpDecoder<'i>
        ensures { result ≡ jis0208.now }
    {
        Iso2022JpDecoder {
            jis0208: FormedIndex::new(jis0208),
        }
    }

    /// The code point of a lead byte and the byte after it.
    // In the loop over the bytes.
    #[inline(always)]
    fn code_point(&self, lead: u8, byte: u8) -> Option<Scalar>
        ensures { pair_item (code_point_of self.now) lead byte ≡ one_or_error result }
    {
        if !is_pair_byte(byte) {
            return None;
        }
        self.jis0208.code_point(pointer(lead, byte))
    }

    /// The UTF-8 form of the pair's code point.
    // In the loop over the bytes.
    #[inline(always)]
    fn form(&self, lead: u8, byte: u8) -> Utf8Form
        ensures { IfSome result (λ code_point. pair_item (code_point_of self.now) lead byte ≡ One code_point) }
    {
        if !is_pair_byte(byte) {
            return Utf8Form::none();
        }
        self.jis0208.form(pointer(lead, byte))
    }

    /// The item of a lead byte and the byte after it.
    fn pair(&self, lead: u8, byte: u8) -> Item
        ensures { result ≡ pair_item (code_point_of self.now) lead byte }
    {
        one_or_error(self.code_point(lead, byte))
    }
}

/// The pointer of a lead byte and the byte after it.
// In the loop over the bytes.
#[inline(always)]
fn pointer(lead: u8, byte: u8) -> u32
    ensures { result ≡ (lead - 0x21) * 94 + (byte - 0x21) }
{
    u32::from(lead.saturating_sub(0x21)) * 94 + u32::from(byte.saturating_sub(0x21))
}

/// Whether the byte is one of a pair.
// In the loop over the bytes.
#[inline(always)]
fn is_pair_byte(byte: u8) -> bool
    ensures { result ≡ is_pair_byte byte }
{
    0x21 <= byte && byte <= 0x7E
}

/// A byte other than 1B that is read in the output state.
fn ready(state: Iso2022JpState, output: OutputState, byte: u8) -> Handled<Iso2022JpState>
    ensures state { result.state ≡ (ready_byte state output byte).state }
    ensures answer { result.answer ≡ (ready_byte state output byte).answer }
    ensures back { bytes_of result.back ≡ (ready_byte state output byte).back }
{
    match (output, byte) {
        (OutputState::Ascii, _) => give(state, ascii_item(byte)),
        (OutputState::Roman, _) => give(state, roman_item(byte)),
        (OutputState::Katakana, _) => give(state, katakana_item(byte)),
        (OutputState::Jis0208, _) if is_pair_byte(byte) => hold(state.entering(DecoderState::Trail(
            byte,
        ))),
        (OutputState::Jis0208, _) => give(state, Item::Error),
    }
}

/// The turn at the last byte of an escape. The escape leads to an output state or to none, and has
/// these bytes.
fn escaped(state: Iso2022JpState, to: Option<OutputState>, bytes: Few) -> Handled<Iso2022JpState>
    ensures state { result.state ≡ (escaped state to (bytes_of bytes)).state }
    ensures answer { result.answer ≡ (escaped state to (bytes_of bytes)).answer }
    ensures back { bytes_of result.back ≡ (escaped state to (bytes_of bytes)).back }
{
    match to {
        Some(output) if state.flag => { give(Iso2022JpState::switched(output), Item::Error) }
        Some(output) => hold(Iso2022JpState::switched(output)),
        None => restore(state.returning(), Item::Error, bytes),
    }
}

/// The end.
fn end(state: Iso2022JpState) -> Handled<Iso2022JpState>
    ensures state { result.state ≡ (state_end state state.state).state }
    ensures answer { result.answer ≡ (state_end state state.state).answer }
    ensures back { bytes_of result.back ≡ (state_end state state.state).back }
{
    match state.state {
        DecoderState::Ready(_) => finish(state),
        DecoderState::Trail(_) => give(state.entering(LEAD_BYTE), Item::Error),
        DecoderState::EscapeStart => give(state.returning(), Item::Error),
        DecoderState::Escape(lead) => restore(state.returning(), Item::Error, Few::One(lead)),
    }
}

impl<'i> Handler for Iso2022JpDecoder<'i> {
    type State = Iso2022JpState;

    ghost table = { λ d. iso_2022_jp (code_point_of d) };

    ghost initial = { λ _. iso_2022_jp_start };

    fn start_state(&self) -> Iso2022JpState {
        Iso2022JpState::start()
    }

    #[inline(always)]
    fn ascii_runs(&self, state: Iso2022JpState) -> AsciiRuns {
        match (state.state, state.flag) {
            (DecoderState::Ready(OutputState::Ascii), false) => AsciiRuns::WithoutEscapes,
            _ => AsciiRuns::None,
        }
    }

    #[inline(always)]
    fn characters(&self) -> Characters {
        Characters::Pairs
    }

    // In the loop over the bytes. Behind an escape the flag is set until the first pair is read.
    #[inline(always)]
    fn known_pair(&self, state: Iso2022JpState, lead: u8, trail: u8) -> Utf8Form {
        match (state.state, state.flag) {
            (DecoderState::Ready(OutputState::Jis0208), false) if is_pair_byte(lead) => self.form(
                lead, trail,
            ),
            _ => Utf8Form::none(),
        }
    }

    // The flag is set until the first character after the escape is read: a pair, or a byte.
    #[inline(always)]
    fn escape(&self, state: Iso2022JpState, bytes: &[u8]) -> Option<Escape<Iso2022JpState>> {
        match (state.state, state.flag, bytes) {
            (DecoderState::Ready(_), false, [0x1B, lead, byte, ..]) => {
                let output = escape_to(*lead, *byte)?;
                let is_paired = output == OutputState::Jis0208;
                Some(Escape {
                    state: Iso2022JpState::switched(output),
                    behind: if is_paired { 2 } else { 1 },
                })
            }
            _ => None,
        }
    }

    // In the loop over the bytes.
    #[inline(always)]
    fn turn(&self, state: Iso2022JpState, byte: Option<u8>) -> Handled<Iso2022JpState> {
        let Some(byte) = byte else {
            return end(state);
        };
        match (state.state, byte) {
            (DecoderState::Ready(_), 0x1B) => hold(state.entering(DecoderState::EscapeStart)),
            (DecoderState::Ready(output), _) => ready(state.unflagged(), output, byte),
            (DecoderState::Trail(_), 0x1B) => give(
                state.entering(DecoderState::EscapeStart),
                Item::Error,
            ),
            (DecoderState::Trail(lead), _) => {
                give(state.entering(LEAD_BYTE), self.pair(lead, byte))
            }
            (DecoderState::EscapeStart, 0x24 | 0x28) => {
                hold(state.entering(DecoderState::Escape(byte)))
            }
            (DecoderState::EscapeStart, _) => {
                restore(state.returning(), Item::Error, Few::One(byte))
            }
            (DecoderState::Escape(lead), _) => {
                escaped(state, escape_to(lead, byte), Few::Two(lead, byte))
            }
        }
    }

    ghost ends = { λ d. falls_of _ (iso_2022_jp_holding (code_point_of d)) };

    ghost counts = { λ d. counts_of _ (iso_2022_jp_holding (code_point_of d)) };

    ghost exact = { iso_2022_jp_exact };
}
