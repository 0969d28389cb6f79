//! The EUC-JP decoder.
ghost use Rattle.std.specs.Prelude.{◌≡◌, ◌+◌, ◌*◌, ◌-◌, ◌≤◌, IfSome, Some};
ghost use Rattle.std.proofs.Common.{rules};
ghost use Rattle.index_loader.specs.Index.{code_point_of};
ghost use Rattle.decoder_core.specs.Steps.{bytes_of};
ghost use Rattle.decoder_core.specs.Holding.{falls_of, counts_of};
ghost use Rattle.multibyte_decoders.specs.declared.euc_jp.EucJpState.TheVariants.{Idle};
ghost use Rattle.multibyte_decoders.specs.EucJp.{euc_jp, euc_jp_second, euc_jp_pair};
ghost use Rattle.multibyte_decoders.specs.Holdings.{euc_jp_holding};

use crate::turns::{ascii_item, begin, complete, one_of};
use decoder_core::forms::{finish, give, give_one, hold};
use decoder_core::{AsciiRuns, Characters, Handled, Handler, Item};
use enc_names::Scalar;
use index_loader::{FormedIndex, Index, Utf8Form};
use std::marker::Model;

/// The state of the EUC-JP decoder between two bytes.
#[derive(Clone, Copy, PartialEq, Eq, Debug)]
pub enum EucJpState {
    /// Nothing is pending.
    Idle,
    /// A lead byte is pending.
    Lead(u8),
    /// A lead byte is pending after 8F, and the pair is in index jis0212.
    Jis0212Lead(u8),
}

/// The EUC-JP decoder (Encoding Standard, "EUC-JP decoder"), which borrows the indexes jis0208 and
/// jis0212. Contracts see the two indexes.
#[derive(Drop)]
pub struct EucJpDecoder<'i> {
    jis0208: FormedIndex<'i>,
    jis0212: FormedIndex<'i>,
}

impl<'i> Model for EucJpDecoder<'i> {
    ghost use Rattle.multibyte_decoders.specs.EucJp.{EucJpIndexes};

    ghost Value = { EucJpIndexes };

    ghost view = { λ d. record { jis0208 = d.jis0208; jis0212 = d.jis0212 } };
}

impl<'i> EucJpDecoder<'i> {
    /// The decoder over the indexes jis0208 and jis0212.
    pub fn new(jis0208: &'i Index, jis0212: &'i Index) -> EucJpDecoder<'i>
        ensures { result ≡ record { jis0208 = jis0208.now; jis0212 = jis0212.now } }
    {
        EucJpDecoder {
            jis0208: FormedIndex::new(jis0208),
            jis0212: FormedIndex::new(jis0212),
        }
    }

    /// A byte after a lead.
    // In the loop over the bytes.
    #[inline(always)]
    fn second(&self, lead: u8, byte: u8) -> Handled<EucJpState>
        ensures state { result.state ≡ (euc_jp_second (code_point_of self.now.jis0208) lead byte).state }
        ensures answer { result.answer ≡ (euc_jp_second (code_point_of self.now.jis0208) lead byte).answer }
        ensures back { bytes_of result.back ≡ (euc_jp_second (code_point_of self.now.jis0208) lead byte).back }
    {
        match (lead, byte) {
            (0x8E, 0xA1..=0xDF) => give_one(EucJpState::Idle, 0xFF61 - 0xA1 + u32::from(byte)),
            (0x8F, 0xA1..=0xFE) => hold(EucJpState::Jis0212Lead(byte)),
            _ => complete(
                EucJpState::Idle,
                one_of(pair(&self.jis0208, lead, byte)),
                byte,
            ),
        }
    }
}

/// The pointer of a lead and the byte after it. Both are A1 or above.
// In the loop over the bytes.
#[inline(always)]
fn pointer(lead: u8, byte: u8) -> u32
    requires lead { 0xA1 ≤ lead }
    requires byte { 0xA1 ≤ byte }
    ensures { result ≡ (lead - 0xA1) * 94 + (byte - 0xA1) }
{
    u32::from(lead - 0xA1) * 94 + u32::from(byte - 0xA1)
}

/// The code point of a pair in one of the two indexes.
// In the loop over the bytes.
#[inline(always)]
fn pair(index: &FormedIndex<'_>, lead: u8, byte: u8) -> Option<Scalar>
    ensures { result ≡ euc_jp_pair (code_point_of index.now) lead byte }
{
    match (lead, byte) {
        (0xA1..=0xFE, 0xA1..=0xFE) => index.code_point(pointer(lead, byte)),
        _ => None,
    }
}

/// The UTF-8 form of the pair's code point.
// In the loop over the bytes.
#[inline(always)]
fn form(index: &FormedIndex<'_>, lead: u8, byte: u8) -> Utf8Form
    ensures { IfSome result (λ code_point. euc_jp_pair (code_point_of index.now) lead byte ≡ Some code_point) }
{
    match (lead, byte) {
        (0xA1..=0xFE, 0xA1..=0xFE) => index.form(pointer(lead, byte)),
        _ => Utf8Form::none(),
    }
}

impl<'i> Handler for EucJpDecoder<'i> {
    type State = EucJpState;

    ghost table = { λ d. euc_jp (code_point_of d.jis0208) (code_point_of d.jis0212) };

    ghost initial = { λ _. Idle };

    fn start_state(&self) -> EucJpState {
        EucJpState::Idle
    }

    #[inline(always)]
    fn ascii_runs(&self, state: EucJpState) -> AsciiRuns {
        match state {
            EucJpState::Idle => AsciiRuns::All,
            _ => AsciiRuns::None,
        }
    }

    #[inline(always)]
    fn characters(&self) -> Characters {
        Characters::Pairs
    }

    // In the loop over the bytes.
    #[inline(always)]
    fn known_pair(&self, state: EucJpState, lead: u8, trail: u8) -> Utf8Form {
        match (state, lead) {
            (EucJpState::Idle, 0xA1..=0xFE) => form(&self.jis0208, lead, trail),
            _ => Utf8Form::none(),
        }
    }

    // In the loop over the bytes.
    #[inline(always)]
    fn turn(&self, state: EucJpState, byte: Option<u8>) -> Handled<EucJpState> {
        match (state, byte) {
            (EucJpState::Idle, None) => finish(EucJpState::Idle),
            (_, None) => give(EucJpState::Idle, Item::Error),
            (EucJpState::Idle, Some(byte)) => {
                let is_lead = matches!(byte, 0x8E | 0x8F | 0xA1..=0xFE);
                let held = EucJpState::Lead(byte);
                begin(EucJpState::Idle, is_lead, held, ascii_item(byte))
            }
            (EucJpState::Lead(lead), Some(byte)) => self.second(lead, byte),
            (EucJpState::Jis0212Lead(lead), Some(byte)) => complete(
                EucJpState::Idle,
                one_of(pair(&self.jis0212, lead, byte)),
                byte,
            ),
        }
    }

    ghost ends = { λ d. falls_of _ (euc_jp_holding (code_point_of d.jis0208) (code_point_of d.jis0212)) };

    ghost counts = { λ d. counts_of _ (euc_jp_holding (code_point_of d.jis0208) (code_point_of d.jis0212)) };

    ghost exact = { λ a b h. Prim.search rules };
}
