//! The single-byte decoder.
ghost use Rattle.std.specs.Prelude.{◌≡◌};
ghost use Rattle.std.proofs.Common.{rules};
ghost use Rattle.index_loader.specs.Index.{code_point_of};
ghost use Rattle.decoder_core.specs.{declared.one_byte.OneByteState.TheVariants.Idle, Holding.falls_of, Holding.counts_of, OneByteLaws.single_byte_holding};
ghost use Rattle.decoder_core.specs.SingleByte.{single_byte, single_byte_item};

use crate::ascii_runs::AsciiRuns;
use crate::characters::Characters;
use crate::forms::{finish, found, give, scalar};
use crate::handler::{Handled, Handler};
use crate::item::Item;
use crate::one_byte::OneByteState;
use index_loader::{ByteForms, FormedIndex, Index};
use std::marker::Model;

/// The decoder of the 28 single-byte encodings, which borrows the index of one. (Encoding Standard,
/// "Legacy single-byte encodings", "single-byte decoder".) Contracts see the index.
#[derive(Drop)]
pub struct SingleByteDecoder<'i> {
    index: FormedIndex<'i>,
}

impl<'i> Model for SingleByteDecoder<'i> {
    ghost use Rattle.index_loader.specs.Index.{Loaded};

    ghost Value = { Loaded };

    ghost view = { λ d. d.index };
}

impl<'i> SingleByteDecoder<'i> {
    /// The decoder over an encoding's index.
    pub fn new(index: &'i Index) -> SingleByteDecoder<'i>
        ensures { result ≡ index.now }
    {
        SingleByteDecoder {
            index: FormedIndex::new(index),
        }
    }

    /// The item of a byte.
    fn item(&self, byte: u8) -> Item
        ensures { result ≡ single_byte_item (code_point_of self.now) byte }
    {
        if byte <= 0x7F {
            return Item::One(scalar(u32::from(byte)));
        }
        found(self.index.code_point(u32::from(byte - 0x80)))
    }
}

impl<'i> Handler for SingleByteDecoder<'i> {
    type State = OneByteState;

    ghost table = { λ d. single_byte (code_point_of d) };

    ghost initial = { λ _. Idle };

    fn start_state(&self) -> OneByteState {
        OneByteState::Idle
    }

    #[inline(always)]
    fn ascii_runs(&self, state: OneByteState) -> AsciiRuns {
        let _ = state;
        AsciiRuns::All
    }

    #[inline(always)]
    fn characters(&self) -> Characters {
        Characters::Bytes
    }

    #[inline(always)]
    fn known_bytes(&self, state: OneByteState) -> Option<&ByteForms> {
        let _ = state;
        self.index.bytes()
    }

    // In the loop over the bytes.
    #[inline(always)]
    fn turn(&self, state: OneByteState, byte: Option<u8>) -> Handled<OneByteState> {
        match byte {
            Some(byte) => give(state, self.item(byte)),
            None => finish(state),
        }
    }

    ghost ends = { λ d. falls_of _ (single_byte_holding (code_point_of d)) };

    ghost counts = { λ d. counts_of _ (single_byte_holding (code_point_of d)) };

    ghost exact = { λ a b h. Prim.search rules };
}
