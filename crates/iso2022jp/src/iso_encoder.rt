//! The ISO-2022-JP encoder.
ghost use Rattle.std.specs.Prelude.{◌≡◌, ◌≤◌, IfSome, true};
ghost use Rattle.decoder_core.specs.Steps.{bytes_of};
ghost use Rattle.enc_names.specs.declared.encoding.Encoding.TheVariants.{Iso2022Jp};
ghost use Rattle.index_loader.specs.Files.{has_files};
ghost use Rattle.index_loader.specs.Index.{code_point_of};
ghost use Rattle.iso2022jp.specs.Iso2022JpEncoder.{escape_of, fails, folded, iso_2022_jp_encoder, iso_pointer};
ghost use Rattle.iso2022jp.specs.Iso2022JpEncoder.{jis0208_turn, other_turn, pointer_in, puts, switches};

use crate::jis_pointer::row_pointer;
use crate::output::OutputState;
use decoder_core::{Encoder, EncoderAnswer, EncoderTurn, Few};
use enc_names::Encoding;
use index_loader::{Family, Index, Indexes};
use lane_ascii::plain_run_iso;
use std::marker::Model;

/// The escape that switches to a state (Encoding Standard, "ISO-2022-JP encoder"); to katakana the
/// one that the decoder reads.
pub fn escape_of(state: OutputState) -> [u8; 3]
    ensures { result ≡ escape_of state }
{
    match state {
        OutputState::Ascii => [0x1B, 0x28, 0x42],
        OutputState::Roman => [0x1B, 0x28, 0x4A],
        OutputState::Katakana => [0x1B, 0x28, 0x49],
        OutputState::Jis0208 => [0x1B, 0x24, 0x42],
    }
}

/// The bytes of a code point, in the same state.
fn puts(state: OutputState, bytes: Few) -> EncoderTurn<OutputState>
    ensures state { result.state ≡ (puts state (bytes_of bytes)).state }
    ensures answer { result.answer ≡ (puts state (bytes_of bytes)).answer }
    ensures bytes { bytes_of result.bytes ≡ (puts state (bytes_of bytes)).bytes }
{
    EncoderTurn {
        state,
        answer: EncoderAnswer::Puts,
        bytes,
    }
}

/// The escape to a state, in which the code point is taken again.
fn switches(next: OutputState) -> EncoderTurn<OutputState>
    ensures state { result.state ≡ (switches next).state }
    ensures answer { result.answer ≡ (switches next).answer }
    ensures bytes { bytes_of result.bytes ≡ (switches next).bytes }
{
    let [first, second, third] = escape_of(next);
    EncoderTurn {
        state: next,
        answer: EncoderAnswer::Restores,
        bytes: Few::Three(first, second, third),
    }
}

/// An error with this code point, in the same state.
fn fails(state: OutputState, code_point: char) -> EncoderTurn<OutputState>
    ensures state { result.state ≡ (fails state code_point).state }
    ensures answer { result.answer ≡ (fails state code_point).answer }
    ensures bytes { bytes_of result.bytes ≡ (fails state code_point).bytes }
{
    EncoderTurn {
        state,
        answer: EncoderAnswer::Fails(code_point),
        bytes: Few::Zero,
    }
}

/// A code point that only the state jis0208 may have, by its pointer.
fn jis0208_turn(state: OutputState, c: char, pointer: Option<u32>) -> EncoderTurn<OutputState>
    requires { IfSome pointer (λ p. p ≤ 8835) }
    ensures state { result.state ≡ (jis0208_turn state c pointer).state }
    ensures answer { result.answer ≡ (jis0208_turn state c pointer).answer }
    ensures bytes { bytes_of result.bytes ≡ (jis0208_turn state c pointer).bytes }
{
    match (state, pointer) {
        (OutputState::Jis0208, Some(p)) => {
            let lead = (p / 94) as u8 + 0x21;
            let trail = (p % 94) as u8 + 0x21;
            puts(state, Few::Two(lead, trail))
        }
        // A character reference is ASCII, so the state is left first.
        (OutputState::Jis0208, None) => switches(OutputState::Ascii),
        (_, Some(_)) => switches(OutputState::Jis0208),
        (_, None) => fails(state, c),
    }
}

/// The ISO-2022-JP encoder, which borrows its indexes. Contracts see these.
#[derive(Drop)]
pub(crate) struct Iso2022JpEncoder<'i> {
    jis0208: &'i Index,
    katakana: &'i Index,
}

impl<'i> Model for Iso2022JpEncoder<'i> {
    ghost use Rattle.index_loader.specs.Index.{Loaded};

    ghost Value = { Loaded × Loaded };

    ghost view = { λ d. (d.jis0208.now, d.katakana.now) };
}

impl<'i> Iso2022JpEncoder<'i> {
    /// The encoder over the loaded files.
    #[tactic(auto, unfolding(index_loader::specs::Files::has_files))]
    pub(crate) fn new(indexes: &'i Indexes) -> Iso2022JpEncoder<'i>
        requires { has_files indexes.now Iso2022Jp ≡ true }
        ensures { pointer_in indexes.now ≡ iso_pointer result.0 result.1 }
    {
        match indexes.of(Encoding::Iso2022Jp) {
            Some(Family::Iso2022Jp { jis0208, katakana }) => Iso2022JpEncoder { jis0208, katakana },
            _ => unreachable!(),
        }
    }

    /// The code point that is looked up in index jis0208 for this one.
    fn folded(&self, c: char) -> Option<char>
        ensures { result ≡ folded (code_point_of self.now.1) c }
    {
        match u32::from(c) {
            0x2212 => Some('\u{FF0D}'),
            0xFF61..=0xFF9F => Some(self.katakana.code_point(u32::from(c) - 0xFF61)?.to_char()),
            _ => Some(c),
        }
    }

    /// The pointer of a code point.
    fn pointer(&self, c: char) -> Option<u32>
        ensures value { result ≡ iso_pointer self.now.0 self.now.1 c }
        ensures bound { IfSome result (λ p. p ≤ 8835) }
    {
        row_pointer(self.jis0208, self.folded(c)?)
    }

    /// Takes a turn by the steps that follow those of the states ASCII and Roman.
    fn other_turn(&self, state: OutputState, c: char) -> EncoderTurn<OutputState>
        ensures state { result.state ≡ (other_turn (iso_pointer self.now.0 self.now.1) state c).state }
        ensures answer { result.answer ≡ (other_turn (iso_pointer self.now.0 self.now.1) state c).answer }
        ensures bytes { bytes_of result.bytes ≡ (other_turn (iso_pointer self.now.0 self.now.1) state c).bytes }
    {
        match u32::from(c) {
            0..=0x7F => switches(OutputState::Ascii),
            0xA5 | 0x203E => switches(OutputState::Roman),
            _ => jis0208_turn(state, c, self.pointer(c)),
        }
    }
}

impl<'i> Encoder for Iso2022JpEncoder<'i> {
    type State = OutputState;

    ghost table = { λ e. iso_2022_jp_encoder (iso_pointer e.0 e.1) };

    fn turn(&self, state: OutputState, code_point: char) -> EncoderTurn<OutputState> {
        match (state, u32::from(code_point)) {
            (OutputState::Ascii | OutputState::Roman, 0x0E | 0x0F | 0x1B) => {
                fails(state, '\u{FFFD}')
            }
            (OutputState::Ascii, 0..=0x7F) => puts(state, Few::One(code_point as u8)),
            (OutputState::Roman, 0xA5) => puts(state, Few::One(0x5C)),
            (OutputState::Roman, 0x203E) => puts(state, Few::One(0x7E)),
            (OutputState::Roman, 0x5C | 0x7E) => self.other_turn(state, code_point),
            (OutputState::Roman, 0..=0x7F) => puts(state, Few::One(code_point as u8)),
            _ => self.other_turn(state, code_point),
        }
    }

    #[tactic(auto, using(crate::proofs::PlainRuns::plain_within))]
    fn plain_run(&self, state: OutputState, text: &[u8]) -> usize {
        match state {
            OutputState::Ascii => plain_run_iso(text),
            _ => 0,
        }
    }
}
