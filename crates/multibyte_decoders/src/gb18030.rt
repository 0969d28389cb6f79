//! The gb18030 decoder.
ghost use Rattle.std.specs.Prelude.{◌≡◌, true};
ghost use Rattle.std.proofs.Common.{refl, rules};
ghost use Rattle.index_loader.specs.Index.{code_point_of};
ghost use Rattle.decoder_core.specs.Steps.{bytes_of};
ghost use Rattle.decoder_core.specs.Holding.{falls_of, counts_of};
ghost use Rattle.multibyte_decoders.specs.declared.gb18030.Gb18030State.TheVariants.{Idle};
ghost use Rattle.multibyte_decoders.specs.Gb18030.{gb18030, gb18030_four, gb18030_pairs};
ghost use Rattle.multibyte_decoders.specs.Holdings.{gb18030_holding};

use crate::pair_tables::numbers;
use crate::pairs::{PairRules, pair_form, pair_item};
use crate::turns::{ascii_item, begin, complete, one_of};
use decoder_core::forms::{finish, found, give, hold, restore, scalar};
use decoder_core::{AsciiRuns, Characters, Few, Handled, Handler, Item};
use index_loader::{FormedIndex, Index, Utf8Form};
use std::marker::Model;

/// The state of the gb18030 decoder between two bytes: the bytes that are pending.
#[derive(Clone, Copy, PartialEq, Eq, Debug)]
pub enum Gb18030State {
    /// None.
    Idle,
    /// One byte.
    First(u8),
    /// Two bytes.
    Second(u8, u8),
    /// Three bytes.
    Third(u8, u8, u8),
}

/// The gb18030 decoder, which is the GBK decoder too. (Encoding Standard, "gb18030 decoder" and
/// "GBK decoder".) It borrows index gb18030 and index gb18030 ranges. Contracts see the two
/// indexes.
#[derive(Drop)]
pub struct Gb18030Decoder<'i> {
    index: FormedIndex<'i>,
    ranges: &'i Index,
}

/// The GBK decoder (Encoding Standard, "GBK decoder").
pub type GbkDecoder<'i> = Gb18030Decoder<'i>;

impl<'i> Model for Gb18030Decoder<'i> {
    ghost use Rattle.multibyte_decoders.specs.Gb18030.{Gb18030Indexes};

    ghost Value = { Gb18030Indexes };

    ghost view = { λ d. record { index = d.index; ranges = d.ranges.now } };
}

impl<'i> Gb18030Decoder<'i> {
    /// The decoder over index gb18030 and index gb18030 ranges.
    pub fn new(index: &'i Index, ranges: &'i Index) -> Gb18030Decoder<'i>
        ensures { result ≡ record { index = index.now; ranges = ranges.now } }
    {
        Gb18030Decoder {
            index: FormedIndex::new(index),
            ranges,
        }
    }
}

/// The starts of the rows of the first bytes.
const ROWS: [u16; 256] = numbers!(190, 0x81 to 0xFE above 0x81);

/// The columns of the second bytes.
const COLUMNS: [u16; 256] = numbers!(1, 0x40 to 0x7E above 0x40, 0x80 to 0xFE above 0x41);

/// The rules of gb18030 for single bytes and pairs.
enum Gb18030Pairs {}

impl PairRules for Gb18030Pairs {
    ghost rule = { gb18030_pairs };

    ghost known = { λ _. true };

    // In the loop over the bytes, as all of these.
    #[inline(always)]
    fn is_lead(byte: u8) -> bool {
        (0x81..=0xFE).contains(&byte)
    }

    #[inline(always)]
    fn single(byte: u8) -> Item {
        match byte {
            0x80 => Item::One(scalar(0x20AC)),
            _ => ascii_item(byte),
        }
    }

    // One range except one byte: a branch on the half that it is in would be mispredicted again and
    // again.
    #[inline(always)]
    fn is_trail(byte: u8) -> bool {
        0x40 <= byte && byte <= 0xFE && byte != 0x7F
    }

    #[inline(always)]
    fn pointer(first: u8, trail: u8) -> u32 {
        let column = if trail < 0x7F {
            trail.saturating_sub(0x40)
        } else {
            trail - 0x41
        };
        u32::from(first.saturating_sub(0x81)) * 190 + u32::from(column)
    }

    #[inline(always)]
    fn item(index: &FormedIndex<'_>, pointer: u32) -> Option<Item> {
        one_of(index.code_point(pointer))
    }

    #[inline(always)]
    fn rows() -> &'static [u16; 256] {
        &ROWS
    }

    #[inline(always)]
    fn columns() -> &'static [u16; 256] {
        &COLUMNS
    }

    ghost ascii = { λ b low. Prim.search rules };

    ghost plain = { λ index lead b known trail. refl };
}

/// The pointer of four bytes.
fn four(first: u8, second: u8, third: u8, fourth: u8) -> u32
    ensures { result ≡ gb18030_four first second third fourth }
{
    u32::from(first.saturating_sub(0x81)) * 12600
        + u32::from(second.saturating_sub(0x30)) * 1260
        + u32::from(third.saturating_sub(0x81)) * 10
        + u32::from(fourth.saturating_sub(0x30))
}

impl<'i> Handler for Gb18030Decoder<'i> {
    type State = Gb18030State;

    ghost table = { λ d. gb18030 (code_point_of d.index) (code_point_of d.ranges) };

    ghost initial = { λ _. Idle };

    fn start_state(&self) -> Gb18030State {
        Gb18030State::Idle
    }

    #[inline(always)]
    fn ascii_runs(&self, state: Gb18030State) -> AsciiRuns {
        match state {
            Gb18030State::Idle => AsciiRuns::All,
            _ => AsciiRuns::None,
        }
    }

    #[inline(always)]
    fn characters(&self) -> Characters {
        Characters::Pairs
    }

    // In the loop over the bytes.
    #[inline(always)]
    fn known_pair(&self, state: Gb18030State, lead: u8, trail: u8) -> Utf8Form {
        match state {
            Gb18030State::Idle => pair_form::<Gb18030Pairs>(&self.index, lead, trail),
            _ => Utf8Form::none(),
        }
    }

    // In the loop over the bytes.
    #[inline(always)]
    fn turn(&self, state: Gb18030State, byte: Option<u8>) -> Handled<Gb18030State> {
        match (state, byte) {
            (Gb18030State::Idle, None) => finish(Gb18030State::Idle),
            (_, None) => give(Gb18030State::Idle, Item::Error),
            (Gb18030State::Idle, Some(byte)) => begin(
                Gb18030State::Idle,
                Gb18030Pairs::is_lead(byte),
                Gb18030State::First(byte),
                Gb18030Pairs::single(byte),
            ),
            (Gb18030State::First(first), Some(byte @ 0x30..=0x39)) => {
                hold(Gb18030State::Second(first, byte))
            }
            (Gb18030State::First(first), Some(byte)) => complete(
                Gb18030State::Idle,
                pair_item::<Gb18030Pairs>(&self.index, first, byte),
                byte,
            ),
            (Gb18030State::Second(first, second), Some(byte @ 0x81..=0xFE)) => {
                hold(Gb18030State::Third(first, second, byte))
            }
            (Gb18030State::Second(_, second), Some(byte)) => {
                restore(Gb18030State::Idle, Item::Error, Few::Two(second, byte))
            }
            (Gb18030State::Third(first, second, third), Some(byte @ 0x30..=0x39)) => {
                let pointer = four(first, second, third, byte);
                give(Gb18030State::Idle, found(self.ranges.code_point(pointer)))
            }
            (Gb18030State::Third(_, second, third), Some(byte)) => restore(
                Gb18030State::Idle,
                Item::Error,
                Few::Three(second, third, byte),
            ),
        }
    }

    ghost ends = { λ d. falls_of _ (gb18030_holding (code_point_of d.index) (code_point_of d.ranges)) };

    ghost counts = { λ d. counts_of _ (gb18030_holding (code_point_of d.index) (code_point_of d.ranges)) };

    ghost exact = { λ a b h. Prim.search rules };
}
