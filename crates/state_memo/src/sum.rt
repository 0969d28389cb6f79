//! Numbers of a part of a document.
ghost use Rattle.std.specs.Prelude.{◌≡◌, ◌≤◌, true};

/// The numbers of a part of a document and of its text. They have 32 bits each, since a document
/// remembers three of them for each node of its tree of pieces. The facts are those of any text: with
/// them joins are associative, and the length in UTF-8 bounds the other counts of the text.
#[derive(Clone, Copy)]
pub struct Sum {
    /// Bytes of the document.
    pub bytes: u32,
    /// Code points.
    pub scalars: u32,
    /// Code units in UTF-16.
    pub utf16: u32,
    /// Bytes in UTF-8.
    pub utf8: u32,
    /// Errors.
    pub errors: u32,
    /// Line marks: each CR, and each LF that doesn't follow a CR (LSP 3.17, "Text Documents").
    pub marks: u32,
    /// Whether the text begins with LF.
    pub lf_first: bool,
    /// Whether the text ends in CR.
    pub cr_last: bool,
    ghost lf_counts: { lf_first ≡ true → 1 ≤ marks },
    ghost cr_counts: { cr_last ≡ true → 1 ≤ marks },
    ghost few_marks: { marks ≤ scalars },
    ghost few_scalars: { scalars ≤ utf8 },
    ghost few_utf16: { utf16 ≤ utf8 },
}
