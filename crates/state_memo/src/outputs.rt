//! States with an output state.
ghost use Rattle.std.specs.Prelude.{◌≡◌};
ghost use Rattle.iso2022jp.specs.{declared.output.OutputState.OutputState as Output, declared.output.OutputState.TheVariants.Ascii};
ghost use Rattle.codec.specs.Any.{output_of};

use codec::AnyState;
use decoder_core::{OneByteState, ReplacementState, Utf8State, Utf16State};
use iso2022jp::{Iso2022JpState, OutputState};
use multibyte_decoders::{EucJpState, Gb18030State, PairState};

/// A decoder's states, each of which has an output state of ISO-2022-JP.
pub(crate) trait Outputs: Copy {
    ghost output_at: { Self → Output };

    /// The output state: `Ascii` in every encoding but ISO-2022-JP.
    fn output_state(self) -> OutputState
        ensures { result ≡ output_at self };
}

impl Outputs for AnyState {
    ghost output_at = { output_of };

    fn output_state(self) -> OutputState {
        self.output()
    }
}

impl Outputs for Iso2022JpState {
    ghost output_at = { λ s. s.output };

    fn output_state(self) -> OutputState {
        self.output()
    }
}

impl Outputs for Utf8State {
    ghost output_at = { λ _. Ascii };

    fn output_state(self) -> OutputState {
        OutputState::Ascii
    }
}

impl Outputs for Utf16State {
    ghost output_at = { λ _. Ascii };

    fn output_state(self) -> OutputState {
        OutputState::Ascii
    }
}

impl Outputs for OneByteState {
    ghost output_at = { λ _. Ascii };

    fn output_state(self) -> OutputState {
        OutputState::Ascii
    }
}

impl Outputs for ReplacementState {
    ghost output_at = { λ _. Ascii };

    fn output_state(self) -> OutputState {
        OutputState::Ascii
    }
}

impl Outputs for PairState {
    ghost output_at = { λ _. Ascii };

    fn output_state(self) -> OutputState {
        OutputState::Ascii
    }
}

impl Outputs for EucJpState {
    ghost output_at = { λ _. Ascii };

    fn output_state(self) -> OutputState {
        OutputState::Ascii
    }
}

impl Outputs for Gb18030State {
    ghost output_at = { λ _. Ascii };

    fn output_state(self) -> OutputState {
        OutputState::Ascii
    }
}
