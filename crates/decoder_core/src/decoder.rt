//! Decoders, one byte at a time.
ghost use Rattle.std.specs.Prelude.{◌≡◌, ℕ, Bool, true, List, [], ◌∷◌, Option, IfSome};
ghost use Rattle.decoder_core.specs.Queue.{Turn, Falls, run, feed};
ghost use Rattle.decoder_core.specs.{Bulk.IsBulk, Bulk.IsOwnText, Escapes.IsEscape, Steps.alone};

use crate::bulk::{Bulk, NO_BULK};
use crate::item::Item;
use crate::items::Items;

/// The result of one step: the next state, and the items. Each item has the number of bytes read so
/// far that lie after its end.
#[derive(Drop)]
pub struct Step<S> {
    /// The state after the byte.
    pub state: S,
    /// The items in order.
    pub items: Items,
}

/// A step that gives at most one item, which ends at the last byte read.
#[derive(Clone, Copy, PartialEq, Eq, Debug)]
pub struct Simple<S> {
    /// The state after the byte.
    pub state: S,
    /// The item, if the step gives one.
    pub item: Option<Item>,
}

/// An escape: three bytes that give no item.
#[derive(Clone, Copy, PartialEq, Eq, Debug)]
pub struct Escape<S> {
    /// The state after it.
    pub state: S,
    /// The number of bytes after it to step over before others are tried in bulk.
    pub behind: usize,
}

/// A decoder of the Encoding Standard whose bytes come one at a time: bytes that a handler puts
/// back are kept in the state, so none is ever handed back. Steps over the bytes of a document and
/// then `finish` give the Standard's run. A decoder is made by a `Handler`.
pub trait Decoder {
    /// The state of a decoder between two bytes.
    type State: Copy + Eq;

    ghost table: { Self → Self.State → Option ℕ → Turn Self.State };

    ghost initial: { Self → Self.State };

    /// The state before the first byte.
    fn start(&self) -> Self::State
        ensures { result ≡ initial self.now };

    /// Takes one byte. The state (`state`) and the items (`items`) are those of feeding it.
    fn step(&self, state: Self::State, byte: u8) -> Step<Self::State>
        ensures state { result.state ≡ (feed (table self.now) state (byte ∷ [])).state }
        ensures items { result.items ≡ (feed (table self.now) state (byte ∷ [])).items };

    /// Takes one byte in a small form, if the decoder knows the step at once. Most steps of most
    /// decoders have one. The state (`state`) and the item (`items`) are those of feeding the byte.
    /// `None` says nothing about the step.
    fn simple_step(&self, state: Self::State, byte: u8) -> Option<Simple<Self::State>>
        ensures state { IfSome result (λ simple. simple.state ≡ (feed (table self.now) state (byte ∷ [])).state) }
        ensures items { IfSome result (λ simple. alone simple.item ≡ (feed (table self.now) state (byte ∷ [])).items) }
    {
        let _ = (state, byte);
        None
    }

    /// Counts the leading bytes that are their own text. The decoder knows at once that each code
    /// point is an item as long as its UTF-8 form, and leaves the state unchanged. So the text
    /// needn't be written again. The result may be fewer than there are, or none.
    fn own_text(&self, state: Self::State, bytes: &[u8]) -> usize
        ensures { IsOwnText (table self.now) state bytes.now result };

    /// Takes leading bytes in bulk, and writes their text into the block. The decoder knows at once
    /// that each item is one code point, and that they leave the state unchanged. The text is the
    /// UTF-8 of the code points. It may take fewer bytes than it could, or none.
    #[inline(always)]
    fn bulk(&self, state: Self::State, bytes: &[u8], text: &mut [u8; 1024]) -> Bulk
        ensures { IsBulk (table self.now) state bytes.now result text.new }
    {
        let _ = (state, bytes.len(), text.len());
        NO_BULK
    }

    /// The leading escape, if there is one and the decoder knows it at once. `None` says nothing
    /// about the bytes.
    #[inline(always)]
    fn escape(&self, state: Self::State, bytes: &[u8]) -> Option<Escape<Self::State>>
        ensures { IfSome result (λ escape. IsEscape (table self.now) state bytes.now escape.state) }
    {
        let _ = (state, bytes.len());
        None
    }

    /// Takes the end, and gives the items that are still to come (`items`). The state is unchanged
    /// (`state`).
    fn finish(&self, state: Self::State) -> Step<Self::State>
        ensures state { result.state ≡ state }
        ensures items { result.items ≡ run (table self.now) state [] };

    ghost ends: { (d : Self) → Falls (table d) };

    ghost exact: { (a b : Self.State) → Self.State.eq a b ≡ true → a ≡ b };
}
