//! The state of the ISO-2022-JP decoder.
ghost use Rattle.std.specs.Prelude.{◌≡◌};
ghost use Rattle.iso2022jp.specs.Iso2022Jp.{iso_2022_jp_start, output_of, entering, unflagged, returning, switched};

use crate::output::OutputState;
use std::marker::Model;

/// The role of the next byte, and the byte that is held for it. (Encoding Standard, "ISO-2022-JP
/// decoder state" and "ISO-2022-JP lead".)
#[derive(Clone, Copy, PartialEq, Eq, Debug)]
pub enum DecoderState {
    /// The byte is read by the output state: the Standard's states ASCII, Roman, katakana and lead
    /// byte.
    Ready(OutputState),
    /// The byte is the trail of this lead.
    Trail(u8),
    /// The byte follows 1B.
    EscapeStart,
    /// The byte follows 1B and this one.
    Escape(u8),
}

/// The state of the ISO-2022-JP decoder between two bytes. Contracts see the Standard's values.
#[derive(Clone, Copy, PartialEq, Eq, Debug)]
pub struct Iso2022JpState {
    pub(crate) state: DecoderState,
    output: OutputState,
    pub(crate) flag: bool,
}

impl Model for Iso2022JpState {
    ghost use Rattle.iso2022jp.specs.Iso2022Jp.{Iso2022Jp};

    ghost Value = { Iso2022Jp };

    ghost view = { λ s. record { state = s.state; output = s.output; flag = s.flag } };

    ghost inverse = { λ s. record { state = s.state; output = s.output; flag = s.flag } };
}

impl Iso2022JpState {
    /// The state before the first byte.
    pub(crate) fn start() -> Iso2022JpState
        ensures { result ≡ iso_2022_jp_start }
    {
        Iso2022JpState {
            state: DecoderState::Ready(OutputState::Ascii),
            output: OutputState::Ascii,
            flag: false,
        }
    }

    /// The state directly after an escape.
    pub(crate) fn switched(output: OutputState) -> Iso2022JpState
        ensures { result ≡ switched output }
    {
        Iso2022JpState {
            state: DecoderState::Ready(output),
            output,
            flag: true,
        }
    }

    /// The meaning of the bytes after the last escape, even inside another escape. (Encoding
    /// Standard, "ISO-2022-JP decoder output state".)
    pub fn output(self) -> OutputState
        ensures { result ≡ output_of self }
    {
        self.output
    }

    /// The state with another decoder state.
    pub(crate) fn entering(self, state: DecoderState) -> Iso2022JpState
        ensures { result ≡ entering self state }
    {
        Iso2022JpState { state, ..self }
    }

    /// The state with the output flag false.
    pub(crate) fn unflagged(self) -> Iso2022JpState
        ensures { result ≡ unflagged self }
    {
        Iso2022JpState {
            flag: false,
            ..self
        }
    }

    /// The state with the output flag false, back in the output state.
    pub(crate) fn returning(self) -> Iso2022JpState
        ensures { result ≡ returning self }
    {
        self.unflagged().entering(DecoderState::Ready(self.output))
    }
}
