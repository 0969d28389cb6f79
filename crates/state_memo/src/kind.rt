//! Kinds of items.
ghost use Rattle.std.specs.Prelude.{◌≡◌, ℤ, true, false};
ghost use Rattle.state_memo.specs.Items.{kept_item};
ghost use Rattle.state_memo.specs.Runs.{item_of_kind, scalars_of, error_of, output_in};

use crate::ended::Ended;
use decoder_core::Item;
use iso2022jp::OutputState;

/// All of an item but its end, in one byte: the output state, and whether it is one code point,
/// two, or an error. Errors come last, so that one comparison finds them.
#[derive(Clone, Copy, PartialEq, Eq, Debug)]
pub enum ItemKind {
    /// One code point.
    AsciiOne,
    /// Two code points.
    AsciiTwo,
    /// One code point.
    RomanOne,
    /// Two code points.
    RomanTwo,
    /// One code point.
    KatakanaOne,
    /// Two code points.
    KatakanaTwo,
    /// One code point.
    Jis0208One,
    /// Two code points.
    Jis0208Two,
    /// An error.
    AsciiError,
    /// An error.
    RomanError,
    /// An error.
    KatakanaError,
    /// An error.
    Jis0208Error,
}

impl ItemKind {
    /// The kind of an item that is one code point.
    // In the loop over the bytes.
    #[inline(always)]
    pub(crate) fn one(output: OutputState) -> ItemKind
        ensures { (end : ℤ) → item_of_kind result end ≡ record { scalars = 1; end = end; error = false; output = output } }
    {
        match output {
            OutputState::Ascii => ItemKind::AsciiOne,
            OutputState::Roman => ItemKind::RomanOne,
            OutputState::Katakana => ItemKind::KatakanaOne,
            OutputState::Jis0208 => ItemKind::Jis0208One,
        }
    }

    /// The kind of an item that is two code points.
    fn two(output: OutputState) -> ItemKind
        ensures { (end : ℤ) → item_of_kind result end ≡ record { scalars = 2; end = end; error = false; output = output } }
    {
        match output {
            OutputState::Ascii => ItemKind::AsciiTwo,
            OutputState::Roman => ItemKind::RomanTwo,
            OutputState::Katakana => ItemKind::KatakanaTwo,
            OutputState::Jis0208 => ItemKind::Jis0208Two,
        }
    }

    /// The kind of an error.
    fn error(output: OutputState) -> ItemKind
        ensures { (end : ℤ) → item_of_kind result end ≡ record { scalars = 1; end = end; error = true; output = output } }
    {
        match output {
            OutputState::Ascii => ItemKind::AsciiError,
            OutputState::Roman => ItemKind::RomanError,
            OutputState::Katakana => ItemKind::KatakanaError,
            OutputState::Jis0208 => ItemKind::Jis0208Error,
        }
    }

    /// The kind of an item.
    // In the loop over the bytes.
    #[inline(always)]
    pub(crate) fn of(item: Item, output: OutputState) -> ItemKind
        ensures { (end : ℤ) → item_of_kind result end ≡ kept_item item end output }
    {
        match item {
            Item::One(_) => ItemKind::one(output),
            Item::Two(..) => ItemKind::two(output),
            Item::Error => ItemKind::error(output),
        }
    }

    /// The number of code points of an item.
    pub fn scalars(self) -> u8
        ensures { result ≡ scalars_of self }
    {
        match self {
            ItemKind::AsciiTwo
            | ItemKind::RomanTwo
            | ItemKind::KatakanaTwo
            | ItemKind::Jis0208Two => 2,
            _ => 1,
        }
    }

    /// Whether it is an error.
    pub fn is_error(self) -> bool
        ensures { result ≡ error_of self }
    {
        match self {
            ItemKind::AsciiError
            | ItemKind::RomanError
            | ItemKind::KatakanaError
            | ItemKind::Jis0208Error => true,
            _ => false,
        }
    }

    /// The output state after it.
    pub fn output(self) -> OutputState
        ensures { result ≡ output_in self }
    {
        match self {
            ItemKind::AsciiOne | ItemKind::AsciiTwo | ItemKind::AsciiError => OutputState::Ascii,
            ItemKind::RomanOne | ItemKind::RomanTwo | ItemKind::RomanError => OutputState::Roman,
            ItemKind::KatakanaOne | ItemKind::KatakanaTwo | ItemKind::KatakanaError => {
                OutputState::Katakana
            }
            ItemKind::Jis0208One | ItemKind::Jis0208Two | ItemKind::Jis0208Error => {
                OutputState::Jis0208
            }
        }
    }

    /// The item of this kind that ends there.
    pub fn at(self, end: i64) -> Ended
        ensures { result ≡ item_of_kind self end }
    {
        Ended {
            scalars: self.scalars(),
            end,
            error: self.is_error(),
            output: self.output(),
        }
    }
}
