//! One decoder for all encodings.
ghost use Rattle.std.specs.Prelude.{◌≡◌, List, [], ◌∷◌, ℕ, Some, true, false, length, IfSome, is_some};
ghost use Rattle.enc_names.specs.Settings.{setting_of};
ghost use Rattle.index_loader.specs.Files.{has_files};
ghost use Rattle.decoder_core.specs.{Placed.places, Queue.run, Queue.feed, Shown.shown_from};
ghost use Rattle.codec.specs.Any.{any, any_start, decoder_in, given_start};
ghost use Rattle.codec.specs.{Sniffing.restarts, Sniffing.sniffing, declared.prefix.Prefix.TheVariants.Nothing, declared.state.AnyState.AnyState};
ghost use Rattle.codec.specs.declared.state.AnyState.TheVariants.{Sniffing};
ghost use Rattle.codec.specs.{Exact.any_exact, AnyLaws.any_falls, AnyLaws.any_counts, Behind.state_behind, Decode.decode, Mark.mark_length};

use crate::law_standing::law_standing;
use crate::own::{OwnDecoder, among, turn_among};
use crate::prefix::Prefix;
use crate::sniffing::{UTF_16BE, UTF_16LE, sniffing_turn};
use crate::state::AnyState;
use decoder_core::{Handled, Handler, Utf8Decoder, law_one_run};
use enc_names::{Bom, Encoding, Setting};
use index_loader::Indexes;
use std::marker::Model;

/// The decoder of an encoding, whichever it is (Encoding Standard, "decode"). If the setting says so,
/// it first looks for a byte order mark: after a mark of UTF-8 or UTF-16 that encoding is effective,
/// whatever the declared encoding is. It borrows the indexes of the declared encoding. In each
/// encoding's own states it does what that encoding's decoder does alone. In a state that none of
/// these encodings has, it is finished. Contracts see the decoder of the declared encoding, and the
/// setting.
#[derive(Drop)]
pub struct AnyDecoder<'i> {
    own: OwnDecoder<'i>,
    setting: Setting,
}

impl<'i> Model for AnyDecoder<'i> {
    ghost use Rattle.codec.specs.Any.{AnyDecoding};

    ghost Value = { AnyDecoding };

    ghost view = { λ d. record { own = d.own; setting = d.setting } };
}

impl<'i> AnyDecoder<'i> {
    /// The decoder of an encoding (`value`), with its setting (`setting`). It is `None` if one of
    /// the encoding's index files isn't loaded (`variant`). Takes no memory. Its run over a document
    /// gives the items of the definition (`decode`).
    ///
    /// Its state after the first bytes of a document is that of the definition (`behind`). That is
    /// these bytes, while they may become a byte order mark that is looked for. Otherwise it is the
    /// effective encoding with its own decoder's state after the mark. With `Keep` it is the state
    /// of the encoding's own decoder after any bytes.
    pub fn new(indexes: &'i Indexes, encoding: Encoding, bom: Bom) -> Option<AnyDecoder<'i>>
        ensures value { result ≡ decoder_in indexes.now (setting_of encoding bom) }
        ensures setting { IfSome result (λ d. d.setting ≡ setting_of encoding bom) }
        ensures variant { is_some result ≡ has_files indexes.now encoding }
        ensures decode { IfSome result (λ d. (bytes : List ℕ)
            → places (length bytes) (mark_length (setting_of encoding bom) bytes) (run (any d) (any_start d) bytes)
            ≡ (decode indexes.now (setting_of encoding bom) bytes).items) }
        ensures behind { IfSome result (λ d. (bytes : List ℕ)
            → (feed (any d) (any_start d) bytes).state ≡ state_behind indexes.now (setting_of encoding bom) bytes) }
    {
        AnyDecoder::under(indexes, Setting::new(encoding, bom))
    }

    /// The decoder under a setting (`value`), which it keeps (`setting`). It is `None` if an index
    /// file isn't loaded (`variant`). Its runs (`decode`) and its states (`behind`) are as in
    /// `new`.
    pub fn under(indexes: &'i Indexes, setting: Setting) -> Option<AnyDecoder<'i>>
        ensures value { result ≡ decoder_in indexes.now setting }
        ensures setting { IfSome result (λ d. d.setting ≡ setting) }
        ensures variant { is_some result ≡ has_files indexes.now setting.given }
        ensures decode { IfSome result (λ d. (bytes : List ℕ)
            → places (length bytes) (mark_length setting bytes) (run (any d) (any_start d) bytes) ≡ (decode indexes.now setting bytes).items) }
        ensures behind { IfSome result (λ d. (bytes : List ℕ) → (feed (any d) (any_start d) bytes).state ≡ state_behind indexes.now setting bytes) }
    {
        law_standing();
        choose(indexes, setting)
    }

    /// The decoder of the declared encoding. Work over many bytes checks once which encoding that
    /// is.
    pub fn own(&self) -> &OwnDecoder<'i>
        ensures { result.now ≡ self.now.own }
    {
        &self.own
    }

    /// A state from which the bytes give the same items (`shown`) and end alike (`exit`). If a byte order mark is
    /// looked for and the bytes begin with none, it is the first state of the declared encoding (`skipped`). That
    /// encoding's own decoder can start there. Otherwise it is the state itself.
    pub fn without_look(&self, state: AnyState, bytes: &[u8]) -> AnyState
        ensures shown { (read : ℕ) → shown_from (any self.now) read result bytes.now ≡ shown_from (any self.now) read state bytes.now }
        ensures exit { (feed (any self.now) result bytes.now).state ≡ (feed (any self.now) state bytes.now).state }
        ensures skipped { (b : ℕ) (rest : List ℕ) → state ≡ Sniffing Nothing → bytes.now ≡ b ∷ rest
            → (sniffing (given_start self.now.own) Nothing (Some b)).back ≡ b ∷ [] → result ≡ given_start self.now.own }
    {
        law_one_run(self);
        match (state, bytes.split_first()) {
            (AnyState::Sniffing(Prefix::Nothing), Some((first, _))) if !begins_mark(*first) => {
                self.own.given_start()
            }
            _ => state,
        }
    }

    /// The setting by which it reads.
    pub(crate) fn setting(&self) -> Setting
        ensures { result ≡ self.now.setting }
    {
        self.setting
    }
}

/// Whether a byte order mark begins with the byte.
fn begins_mark(byte: u8) -> bool
    ensures none { (start : AnyState) → result ≡ false → sniffing start Nothing (Some byte) ≡ restarts start (byte ∷ []) }
    ensures held { (start : AnyState) → result ≡ true → (sniffing start Nothing (Some byte)).back ≡ [] }
{
    matches!(byte, 0xEF | 0xFE | 0xFF)
}

/// The decoder under a setting over the indexes that its encoding needs.
fn choose<'i>(indexes: &'i Indexes, setting: Setting) -> Option<AnyDecoder<'i>>
    ensures { result ≡ decoder_in indexes.now setting }
{
    let own = OwnDecoder::new(indexes.of(setting.given)?);
    Some(AnyDecoder { own, setting })
}

impl<'i> Handler for AnyDecoder<'i> {
    type State = AnyState;

    ghost table = { any };

    ghost initial = { any_start };

    fn start_state(&self) -> AnyState {
        match self.setting.bom {
            Bom::Sniff => AnyState::Sniffing(Prefix::Nothing),
            Bom::Keep => self.own.given_start(),
        }
    }

    fn turn(&self, state: AnyState, byte: Option<u8>) -> Handled<AnyState> {
        match state {
            AnyState::Sniffing(prefix) => sniffing_turn(self.own.given_start(), prefix, byte),
            AnyState::Utf8(s) => turn_among!(Utf8, Utf8Decoder, s, byte),
            AnyState::Utf16Be(s) => turn_among!(Utf16Be, UTF_16BE, s, byte),
            AnyState::Utf16Le(s) => turn_among!(Utf16Le, UTF_16LE, s, byte),
            _ => self.own.given_turn(state, byte),
        }
    }

    ghost ends = { any_falls };

    ghost counts = { any_counts };

    ghost exact = { any_exact };
}
