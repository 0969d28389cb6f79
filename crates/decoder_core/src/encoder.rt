//! Encoders: one turn of an encoder as the Encoding Standard states it.
ghost use Rattle.std.specs.Prelude.{◌≡◌, ◌≤◌, ℕ, All, length, take};
ghost use Rattle.decoder_core.specs.Steps.{bytes_of};
ghost use Rattle.decoder_core.specs.EncoderSteps.{PutsItself, Table, Turn};

use crate::few::Few;

/// The answer of an encoder's handler to a code point (Encoding Standard, "Encoders and decoders").
#[derive(Clone, Copy, PartialEq, Eq, Debug)]
pub enum EncoderAnswer {
    /// The bytes of the code point.
    Puts,
    /// Bytes, and the code point is restored to the queue: the next turn takes it again.
    Restores,
    /// An error with this code point.
    Fails(char),
}

/// The result of one turn of an encoder's handler.
#[derive(Clone, Copy, PartialEq, Eq, Debug)]
pub struct EncoderTurn<S> {
    /// The state in which the next turn is taken.
    pub state: S,
    /// The answer.
    pub answer: EncoderAnswer,
    /// The bytes that the turn puts into the output; none at an error.
    pub bytes: Few,
}

/// An encoder's handler, as the Encoding Standard states it for each encoding. `encode_by` takes it
/// over a text.
pub trait Encoder {
    /// The state of an encoder between two turns.
    type State: Copy;

    ghost table: { Self → Self.State → ℕ → Turn Self.State };

    /// Takes one turn, for a code point. The state (`state`), the answer (`answer`) and the bytes
    /// (`bytes`) are those of the encoder's table.
    fn turn(&self, state: Self::State, code_point: char) -> EncoderTurn<Self::State>
        ensures state { result.state ≡ (table self.now state code_point).state }
        ensures answer { result.answer ≡ (table self.now state code_point).answer }
        ensures bytes { bytes_of result.bytes ≡ (table self.now state code_point).bytes };

    /// Counts the leading ASCII bytes that the encoder copies in this state (`plain`). They are at
    /// most all bytes of the text (`within`), leave the state unchanged, and are copied at once. A
    /// smaller number is right too.
    fn plain_run(&self, state: Self::State, text: &[u8]) -> usize
        ensures within { result ≤ length text.now }
        ensures plain { All (PutsItself (table self.now) state) (take result text.now) };
}
