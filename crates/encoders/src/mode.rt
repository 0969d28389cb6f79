//! The treatment of a code point without bytes by an encoder.

/// The treatment of code points that the encoding doesn't have (Encoding Standard, "error mode").
#[derive(Clone, Copy, PartialEq, Eq, Debug)]
pub enum EncodeMode {
    /// The text is refused.
    Fatal,
    /// A decimal character reference is put in its place.
    Html,
}

impl EncodeMode {
    ghost use Rattle.std.specs.Prelude.{◌≡◌};
    ghost use Rattle.encoders.specs.Encode.{is_html};

    /// Whether references are put.
    pub(crate) fn is_html(self) -> bool
        ensures { result ≡ is_html self }
    {
        matches!(self, EncodeMode::Html)
    }
}
