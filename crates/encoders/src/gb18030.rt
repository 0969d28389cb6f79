//! The encoder of gb18030 and GBK.
ghost use Rattle.std.specs.Prelude.{◌≡◌, ◌≤◌};
ghost use Rattle.decoder_core.specs.Steps.{bytes_of};
ghost use Rattle.index_loader.specs.Table.{pointer_limit};
ghost use Rattle.encoders.specs.Gb18030.{gb18030_bytes, gb18030_four, gb18030_pair, is_gbk};

use crate::stateless::Stateless;
use decoder_core::Few;
use enc_names::{Encoding, Scalar};
use index_loader::{Index, Indexes};
use std::marker::Model;

/// The two bytes of a pointer.
fn gb18030_pair(pointer: u32) -> Few
    requires { pointer ≤ 23939 }
    ensures { bytes_of result ≡ gb18030_pair pointer }
{
    let lead = (pointer / 190) as u8 + 0x81;
    let trail = (pointer % 190) as u8;
    let offset = if trail < 0x3F { 0x40 } else { 0x41 };
    Few::Two(lead, trail + offset)
}

/// The four bytes of a pointer of the ranges.
fn gb18030_four(pointer: u32) -> Few
    requires { pointer ≤ 1303111 }
    ensures { bytes_of result ≡ gb18030_four pointer }
{
    Few::Four(
        (pointer / 12600) as u8 + 0x81,
        (pointer % 12600 / 1260) as u8 + 0x30,
        (pointer % 1260 / 10) as u8 + 0x81,
        (pointer % 10) as u8 + 0x30,
    )
}

/// The two bytes of an exception.
fn two_of(bytes: [u8; 2]) -> Few
    ensures { bytes_of result ≡ bytes }
{
    let [lead, trail] = bytes;
    Few::Two(lead, trail)
}

/// Whether the encoding is GBK, which the gb18030 encoder's flag "is GBK" says.
pub(crate) fn is_gbk(encoding: Encoding) -> bool
    ensures { result ≡ is_gbk encoding }
{
    matches!(encoding, Encoding::Gbk)
}

/// The encoder of gb18030 and GBK. It borrows its exceptions, from all the loaded files, and its
/// indexes. Contracts see these and its flag.
#[derive(Drop)]
pub(crate) struct Gb18030Encoder<'i> {
    files: &'i Indexes,
    index: &'i Index,
    ranges: &'i Index,
    is_gbk: bool,
}

impl<'i> Model for Gb18030Encoder<'i> {
    ghost use Rattle.std.specs.Prelude.{◌≡◌};
    ghost use Rattle.index_loader.specs.Table.{pointer_limit};
    ghost use Rattle.encoders.specs.Gb18030.{Gb18030};

    ghost Value = { Gb18030 };

    ghost view = { λ e. record { gbk = e.is_gbk; exceptions = e.files.now.exceptions; index = e.index.now; ranges = e.ranges.now } };

    ghost invariant = { λ e. (pointer_limit e.index.now.kind ≡ 23939) × (pointer_limit e.ranges.now.kind ≡ 1303111) };
}

impl<'i> Gb18030Encoder<'i> {
    /// The encoder over its exceptions and indexes, with the Standard's flag "is GBK".
    pub(crate) fn new(
        is_gbk: bool,
        files: &'i Indexes,
        index: &'i Index,
        ranges: &'i Index,
    ) -> Gb18030Encoder<'i>
        requires index { pointer_limit index.now.kind ≡ 23939 }
        requires ranges { pointer_limit ranges.now.kind ≡ 1303111 }
        ensures { result ≡ record { gbk = is_gbk; exceptions = files.now.exceptions; index = index.now; ranges = ranges.now } }
    {
        Gb18030Encoder {
            files,
            index,
            ranges,
            is_gbk,
        }
    }
}

impl<'i> Stateless for Gb18030Encoder<'i> {
    ghost use Rattle.encoders.specs.StatelessLaws.{by_ascii_or};

    ghost encodes = { λ e. gb18030_bytes e.gbk e.exceptions e.index e.ranges };

    #[inline(always)]
    fn bytes(&self, code_point: char) -> Option<Few> {
        match u32::from(code_point) {
            0..=0x7F => return Some(Few::One(code_point as u8)),
            0xE5E5 => return None,
            0x20AC if self.is_gbk => return Some(Few::One(0x80)),
            _ => {}
        }
        let exception = self.files.exception_of(Scalar::from(code_point));
        if let Some(bytes) = exception {
            return Some(two_of(bytes));
        }
        if let Some(pointer) = self.index.pointer(Scalar::from(code_point)) {
            return Some(gb18030_pair(pointer));
        }
        if self.is_gbk {
            return None;
        }
        let pointer = self.ranges.pointer(Scalar::from(code_point))?;
        Some(gb18030_four(pointer))
    }

    ghost ascii = { λ e c is. by_ascii_or _ c is };
}
