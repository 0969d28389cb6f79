//! The beginnings of byte order marks.
ghost use Rattle.std.specs.Prelude.{◌≡◌, [], ◌∷◌, ◌++◌};
ghost use Rattle.decoder_core.specs.Steps.{bytes_of};
ghost use Rattle.codec.specs.Sniffing.{prefix_bytes};

use decoder_core::Few;

/// The first bytes of a document, while they may become a byte order mark. (Encoding Standard, "BOM
/// sniff".)
#[derive(Clone, Copy, PartialEq, Eq, Debug)]
pub enum Prefix {
    /// No byte.
    Nothing,
    /// EF, of UTF-8.
    Ef,
    /// EF BB, of UTF-8.
    EfBb,
    /// FE, of UTF-16BE.
    Fe,
    /// FF, of UTF-16LE.
    Ff,
}

impl Prefix {
    /// The bytes.
    pub(crate) fn bytes(self) -> Few
        ensures { bytes_of result ≡ prefix_bytes self }
    {
        match self {
            Prefix::Nothing => Few::Zero,
            Prefix::Ef => Few::One(0xEF),
            Prefix::EfBb => Few::Two(0xEF, 0xBB),
            Prefix::Fe => Few::One(0xFE),
            Prefix::Ff => Few::One(0xFF),
        }
    }

    /// The bytes and one more.
    pub(crate) fn with(self, byte: u8) -> Few
        ensures { bytes_of result ≡ prefix_bytes self ++ byte ∷ [] }
    {
        match self {
            Prefix::Nothing => Few::One(byte),
            Prefix::Ef => Few::Two(0xEF, byte),
            Prefix::EfBb => Few::Three(0xEF, 0xBB, byte),
            Prefix::Fe => Few::Two(0xFE, byte),
            Prefix::Ff => Few::Two(0xFF, byte),
        }
    }
}
