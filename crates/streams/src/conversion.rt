//! What a conversion is to do, and why it ends early.
ghost use Rattle.std.specs.Prelude.{◌≡◌};
ghost use Rattle.streams.specs.Conversions.{encode_mode, is_strict};

use enc_names::{Encoding, Place, Setting};
use encoders::EncodeMode;

/// What a conversion is to do.
#[derive(Clone, Copy, PartialEq, Eq, Debug)]
pub struct Conversion {
    /// How the bytes are to be read: their encoding, and whether a byte order mark is looked for.
    pub from: Setting,
    /// The encoding in which they are written.
    pub to: Encoding,
    /// What is done about damage.
    pub mode: ConvertMode,
}

/// What is done about bytes that don't decode, and code points that the target lacks (Encoding
/// Standard, "error mode").
#[derive(Clone, Copy, PartialEq, Eq, Debug)]
pub enum ConvertMode {
    /// Either refuses the stream.
    Fatal,
    /// Bytes that don't decode become U+FFFD; a code point that the target lacks refuses the stream.
    Replacement,
    /// Bytes that don't decode become U+FFFD; a code point that the target lacks becomes a decimal
    /// character reference.
    Html,
}

impl ConvertMode {
    /// Whether a decoding error refuses the stream.
    pub(crate) fn is_strict(self) -> bool
        ensures { result ≡ is_strict self }
    {
        matches!(self, ConvertMode::Fatal)
    }

    /// The encoder's error mode.
    pub(crate) fn encode_mode(self) -> EncodeMode
        ensures { result ≡ encode_mode self }
    {
        match self {
            ConvertMode::Html => EncodeMode::Html,
            ConvertMode::Fatal | ConvertMode::Replacement => EncodeMode::Fatal,
        }
    }
}

/// Where something is in a stream.
#[derive(Clone, Copy, PartialEq, Eq, Debug)]
pub struct Spot {
    /// Its bytes, counted from 0.
    pub place: Place,
    /// Its line, counted from 1 (LSP 3.17, "Text Documents": CR LF, CR and LF end a line).
    pub line: u64,
}

/// Why a part of a stream isn't converted.
#[derive(Clone, Copy, PartialEq, Eq, Debug)]
pub enum PartFault {
    /// These bytes don't decode in the effective encoding, in mode `Fatal`.
    Malformed(Spot, Encoding),
    /// The target lacks this code point, in mode `Fatal` or `Replacement`.
    Unencodable(Spot, char),
    /// A write failed.
    Write,
    /// An allocation failed.
    OutOfMemory,
}
