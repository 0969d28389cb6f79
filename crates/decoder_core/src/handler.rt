//! Handlers: one turn of a decoder as the Encoding Standard states it.
ghost use Rattle.std.specs.Prelude.{◌≡◌, ℕ, Bool, true, Option, IfSome};
ghost use Rattle.decoder_core.specs.Fronts.{AreTakenBytes, TakesByte, TakesPair};
ghost use Rattle.decoder_core.specs.Bulk.{IsBulk, IsOwnText};
ghost use Rattle.decoder_core.specs.{AsciiRuns.TakesAscii, Escapes.IsHeldFront, Queue.Turn, Queue.Falls, Counts.Counts, Steps.bytes_of};

use crate::ascii_runs::AsciiRuns;
use crate::bulk::{Bulk, NO_BULK};
use crate::characters::Characters;
use crate::decoder::Escape;
use crate::few::Few;
use crate::item::Item;
use index_loader::{ByteForms, Utf8Form};

/// The answer of a handler: continue, an item, or finished. (Encoding Standard, "Encoders and
/// decoders".)
#[derive(Clone, Copy, PartialEq, Eq, Debug)]
pub enum Answer {
    /// Continue: the next byte is read.
    Nothing,
    /// One or more code points, or an error.
    Gives(Item),
    /// Finished: no more is read.
    Finished,
}

/// The result of one turn of a handler: the next state, its answer, and the bytes put back.
#[derive(Clone, Copy, PartialEq, Eq, Debug)]
pub struct Handled<S> {
    /// The state in which the next turn is taken.
    pub state: S,
    /// The answer that the turn gives.
    pub answer: Answer,
    /// The bytes that the next turns read before any other.
    pub back: Few,
}

/// A decoder's handler, as the Encoding Standard states it for each encoding. Each handler is a
/// `Decoder`.
pub trait Handler {
    /// The state of a decoder between two turns.
    type State: Copy + Eq;

    ghost table: { Self → Self.State → Option ℕ → Turn Self.State };

    ghost initial: { Self → Self.State };

    /// The state before the first turn.
    fn start_state(&self) -> Self::State
        ensures { result ≡ initial self.now };

    /// Takes one turn, for a byte or (`None`) the end of the queue. The state (`state`), the answer
    /// (`answer`) and the bytes put back (`back`) are those of the handler's table.
    fn turn(&self, state: Self::State, byte: Option<u8>) -> Handled<Self::State>
        ensures state { result.state ≡ (table self.now state byte).state }
        ensures answer { result.answer ≡ (table self.now state byte).answer }
        ensures back { bytes_of result.back ≡ (table self.now state byte).back };

    /// The bytes that are their own code points in this state and don't change it. The decoder
    /// takes runs of them in bulk.
    #[inline(always)]
    fn ascii_runs(&self, state: Self::State) -> AsciiRuns
        ensures { TakesAscii (table self.now) state result }
    {
        let _ = state;
        AsciiRuns::None
    }

    /// The characters that the decoder takes in bulk. The state is one in which all ASCII bytes are
    /// their own code points, or none is. In the latter, `Pairs` are taken without ASCII between
    /// them.
    #[inline(always)]
    fn characters(&self) -> Characters {
        Characters::Ascii
    }

    /// The UTF-8 forms of all bytes, each like that of `known_byte`. If they are loaded, the
    /// decoder looks up ASCII here too.
    #[inline(always)]
    fn known_bytes(&self, state: Self::State) -> Option<&ByteForms>
        ensures { IfSome result (λ forms. AreTakenBytes (table self.now) state forms.now) }
    {
        let _ = state;
        None
    }

    /// The UTF-8 form of a byte's code point, if it has exactly one here. The byte leaves this state
    /// unchanged. The decoder takes runs of such bytes in bulk. No form says nothing about the byte.
    #[inline(always)]
    fn known_byte(&self, state: Self::State, byte: u8) -> Utf8Form
        ensures { IfSome result (λ code_point. TakesByte (table self.now) state byte code_point) }
    {
        let _ = (state, byte);
        Utf8Form::none()
    }

    /// The UTF-8 form of two bytes' code point, if they have exactly one. They leave this state
    /// unchanged. The decoder takes runs of such pairs and of ASCII in bulk. No form says nothing
    /// about the bytes.
    #[inline(always)]
    fn known_pair(&self, state: Self::State, lead: u8, trail: u8) -> Utf8Form
        ensures { IfSome result (λ code_point. TakesPair (table self.now) state lead trail code_point) }
    {
        let _ = (state, lead, trail);
        Utf8Form::none()
    }

    /// Counts the leading bytes that are their own text, like `Decoder::own_text`. It is for a
    /// state in which no ASCII bytes are their own code points.
    #[inline(always)]
    fn take_own(&self, state: Self::State, bytes: &[u8]) -> usize
        ensures { IsOwnText (table self.now) state bytes.now result }
    {
        let _ = (state, bytes.len());
        0
    }

    /// Takes bytes in bulk in a state that has no such bytes, as `Decoder::bulk` does.
    #[inline(always)]
    fn take_bulk(&self, state: Self::State, bytes: &[u8], text: &mut [u8; 1024]) -> Bulk
        ensures { IsBulk (table self.now) state bytes.now result text.new }
    {
        let _ = (state, bytes.len(), text.len());
        NO_BULK
    }

    /// The leading escape, if there is one and the handler knows it at once.
    #[inline(always)]
    fn escape(&self, state: Self::State, bytes: &[u8]) -> Option<Escape<Self::State>>
        ensures { IfSome result (λ escape. IsHeldFront (table self.now) state bytes.now escape.state) }
    {
        let _ = (state, bytes.len());
        None
    }

    ghost ends: { (d : Self) → Falls (table d) };

    ghost counts: { (d : Self) → Counts (table d) };

    ghost exact: { (a b : Self.State) → Self.State.eq a b ≡ true → a ≡ b };
}
