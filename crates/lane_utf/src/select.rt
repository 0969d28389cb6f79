//! The end of a number of units in a text.

/// The end of a number of units of UTF-16.
#[derive(Clone, Copy, PartialEq, Eq, Debug)]
pub enum Select {
    /// The byte after the whole code points that take them.
    At(usize),
    /// Between the two units of a surrogate pair.
    Inside,
    /// Behind the end of the text, which takes fewer.
    Past,
}
