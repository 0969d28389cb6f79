//! The way in which a document's bytes are read.
ghost use Rattle.std.specs.Prelude.{◌≡◌};
ghost use Rattle.enc_names.specs.Settings.{setting_of};

use crate::bom::Bom;
use crate::encoding::Encoding;

/// The way in which a document's bytes are read. Decoding needs it in addition to the bytes and the
/// index files. A document has one setting, from its opening.
#[derive(Clone, Copy, PartialEq, Eq, Debug)]
pub struct Setting {
    /// The declared encoding. It is effective unless a byte order mark changes the encoding.
    pub given: Encoding,
    /// Whether a byte order mark is looked for.
    pub bom: Bom,
}

impl Setting {
    /// The setting with this declared encoding and this treatment of a byte order mark.
    pub fn new(given: Encoding, bom: Bom) -> Setting
        ensures { result ≡ setting_of given bom }
    {
        Setting { given, bom }
    }
}
