//! Encoders that keep no state.
ghost use Rattle.std.specs.Prelude.{◌≡◌, ℕ, [], ◌∷◌, List, Option, Some, option_map, true};
ghost use Rattle.decoder_core.specs.{Steps.bytes_of, Forms.is_ascii};
ghost use Rattle.encoders.specs.Stateless.{bytes_turn, stateless};

use decoder_core::{Encoder, EncoderAnswer, EncoderTurn, Few};
use lane_ascii::ascii_run;

/// An encoder that keeps no state and puts ASCII as it is: each code point has its bytes, or none.
pub(crate) trait Stateless {
    ghost encodes: { Self → ℕ → Option (List ℕ) };

    /// The bytes of a code point, if it has any.
    fn bytes(&self, code_point: char) -> Option<Few>
        ensures { option_map bytes_of result ≡ encodes self.now code_point };

    ghost ascii: { (e : Self) (c : ℕ) → is_ascii c ≡ true → encodes e c ≡ Some (c ∷ []) };
}

/// The turn at a code point that has these bytes, or none.
// In the loop over the code points.
#[inline(always)]
pub(crate) fn bytes_turn(code_point: char, found: Option<Few>) -> EncoderTurn<()>
    ensures state { result.state ≡ (bytes_turn code_point (option_map bytes_of found)).state }
    ensures answer { result.answer ≡ (bytes_turn code_point (option_map bytes_of found)).answer }
    ensures bytes { bytes_of result.bytes ≡ (bytes_turn code_point (option_map bytes_of found)).bytes }
{
    match found {
        Some(bytes) => EncoderTurn {
            state: (),
            answer: EncoderAnswer::Puts,
            bytes,
        },
        None => EncoderTurn {
            state: (),
            answer: EncoderAnswer::Fails(code_point),
            bytes: Few::Zero,
        },
    }
}

/// The handler that the bytes of each code point make.
#[derive(Drop)]
pub(crate) struct ByBytes<'e, E> {
    encoder: &'e E,
}

impl<'e, E: Stateless> ByBytes<'e, E> {
    /// The handler of an encoder.
    pub(crate) fn new(encoder: &'e E) -> ByBytes<'e, E>
        ensures { result.encoder.now ≡ encoder.now }
    {
        ByBytes { encoder }
    }
}

impl<'e, E: Stateless> Encoder for ByBytes<'e, E> {
    type State = ();

    ghost table = { λ e. stateless (E.encodes e.encoder.now) };

    #[inline(always)]
    fn turn(&self, _state: (), code_point: char) -> EncoderTurn<()> {
        bytes_turn(code_point, self.encoder.bytes(code_point))
    }

    fn plain_run(&self, _state: (), text: &[u8]) -> usize {
        ascii_run(text)
    }
}
