//! The decoder of single bytes and pairs, which the rules of an encoding make its own.
ghost use Rattle.std.specs.Prelude.{◌≡◌, ℕ, ◌<◌, Bool, false, true, Option, Some, IfSome};
ghost use Rattle.std.proofs.Common.{rules};
ghost use Rattle.index_loader.specs.Index.{code_point_of};
ghost use Rattle.decoder_core.specs.declared.item.Item.TheVariants.{One};
ghost use Rattle.decoder_core.specs.Holding.{falls_of, counts_of};
ghost use Rattle.multibyte_decoders.specs.declared.pairs.PairState.TheVariants.{Idle};
ghost use Rattle.multibyte_decoders.specs.{Holdings.pair_holding, PairLaws.IsPlainIn};
ghost use Rattle.multibyte_decoders.specs.Pairs.{PairRule, column_numbers, pair_decoder, pair_item, pair_pointer, row_numbers};

use crate::pair_tables::NONE;
use crate::turns::{begin, complete};
use decoder_core::forms::{finish, give};
use decoder_core::{AsciiRuns, Characters, Handled, Handler, Item};
use index_loader::{FormedIndex, Index, Utf8Form};
use std::marker::{Model, PhantomData};

/// The state between two bytes of a decoder with one or two bytes a character.
#[derive(Clone, Copy, PartialEq, Eq, Debug)]
pub enum PairState {
    /// Nothing is pending.
    Idle,
    /// A lead byte is pending.
    Lead(u8),
}

/// The rules of an encoding for single bytes, and for pairs over its index.
pub trait PairRules {
    ghost rule: { PairRule };

    ghost known: { ℕ → Bool };

    /// Whether the byte is the lead of a pair.
    fn is_lead(byte: u8) -> bool
        ensures { result ≡ rule.is_lead byte };

    /// The item of a byte that isn't a lead.
    fn single(byte: u8) -> Item
        ensures { result ≡ rule.single byte };

    /// Whether the byte is the trail of a pair.
    fn is_trail(byte: u8) -> bool
        ensures { result ≡ rule.is_trail byte };

    /// The pointer of a lead and a trail.
    fn pointer(lead: u8, trail: u8) -> u32
        ensures { result ≡ pair_pointer rule lead trail };

    /// The item of a pointer, if it has one.
    fn item(index: &FormedIndex<'_>, pointer: u32) -> Option<Item>
        ensures { result ≡ rule.item (code_point_of index.now) pointer };

    /// The starts of the leads' rows. It leaves out rows in which a pointer may have another item
    /// than the code point of the index.
    fn rows() -> &'static [u16; 256]
        ensures { result.now ≡ row_numbers rule known };

    /// The columns of the trails.
    fn columns() -> &'static [u16; 256]
        ensures { result.now ≡ column_numbers rule };

    ghost ascii: { (b : ℕ) → b < 128 → (rule.is_lead b ≡ false) × (rule.single b ≡ One b) };

    ghost plain: { IsPlainIn rule known };
}

/// The item of a lead and the byte after it, if they have one.
// In the loop over the bytes.
#[inline(always)]
pub(crate) fn pair_item<R: PairRules>(index: &FormedIndex<'_>, lead: u8, byte: u8) -> Option<Item>
    ensures { result ≡ pair_item R.rule (code_point_of index.now) lead byte }
{
    if R::is_trail(byte) {
        R::item(index, R::pointer(lead, byte))
    } else {
        None
    }
}

/// The UTF-8 form of the code point of a lead and the next byte. They have one if they have exactly
/// one code point and their row is known. If the first byte isn't a lead, there is none.
// In the loop over the bytes.
#[inline(always)]
pub(crate) fn pair_form<R: PairRules>(index: &FormedIndex<'_>, lead: u8, byte: u8) -> Utf8Form
    ensures lead { IfSome result (λ _. R.rule.is_lead lead ≡ true) }
    ensures pair { IfSome result (λ code_point. pair_item R.rule (code_point_of index.now) lead byte ≡ Some (One code_point)) }
{
    let row = R::rows()[usize::from(lead)];
    let column = R::columns()[usize::from(byte)];
    let pointer = u32::from(row) + u32::from(column);
    if pointer < u32::from(NONE) {
        index.form(pointer)
    } else {
        Utf8Form::none()
    }
}

/// The decoder of an encoding of single bytes and pairs, by its rules. It borrows the encoding's
/// index. Contracts see the index.
#[derive(Drop)]
pub struct PairDecoder<'i, R> {
    index: FormedIndex<'i>,
    encoding: PhantomData<R>,
}

impl<'i, R> Model for PairDecoder<'i, R> {
    ghost use Rattle.index_loader.specs.Index.{Loaded};

    ghost Value = { Loaded };

    ghost view = { λ d. d.index };
}

impl<'i, R> PairDecoder<'i, R> {
    /// The decoder over the encoding's index.
    pub fn new(index: &'i Index) -> PairDecoder<'i, R>
        ensures { result ≡ index.now }
    {
        PairDecoder {
            index: FormedIndex::new(index),
            encoding: PhantomData,
        }
    }
}

impl<'i, R: PairRules> Handler for PairDecoder<'i, R> {
    type State = PairState;

    ghost table = { λ d. pair_decoder R.rule (code_point_of d) };

    ghost initial = { λ _. Idle };

    fn start_state(&self) -> PairState {
        PairState::Idle
    }

    // In the loop over the bytes.
    #[inline(always)]
    fn turn(&self, state: PairState, byte: Option<u8>) -> Handled<PairState> {
        match (state, byte) {
            (PairState::Idle, None) => finish(PairState::Idle),
            (PairState::Lead(_), None) => give(PairState::Idle, Item::Error),
            (PairState::Idle, Some(byte)) => {
                let held = PairState::Lead(byte);
                begin(PairState::Idle, R::is_lead(byte), held, R::single(byte))
            }
            (PairState::Lead(lead), Some(byte)) => complete(
                PairState::Idle,
                pair_item::<R>(&self.index, lead, byte),
                byte,
            ),
        }
    }

    #[inline(always)]
    fn ascii_runs(&self, state: PairState) -> AsciiRuns {
        match state {
            PairState::Idle => AsciiRuns::All,
            PairState::Lead(_) => AsciiRuns::None,
        }
    }

    #[inline(always)]
    fn characters(&self) -> Characters {
        Characters::Pairs
    }

    // In the loop over the bytes.
    #[inline(always)]
    fn known_pair(&self, state: PairState, lead: u8, trail: u8) -> Utf8Form {
        match state {
            PairState::Idle => pair_form::<R>(&self.index, lead, trail),
            PairState::Lead(_) => Utf8Form::none(),
        }
    }

    ghost ends = { λ d. falls_of _ (pair_holding R.rule (code_point_of d)) };

    ghost counts = { λ d. counts_of _ (pair_holding R.rule (code_point_of d)) };

    ghost exact = { λ a b h. Prim.search rules };
}
