//! The UTF-8 decoder.
ghost use Rattle.std.specs.Prelude.{◌≡◌, ℕ, ◌+◌, ◌-◌, ◌*◌, ◌≤◌, ◌<◌};
ghost use Rattle.decoder_core.specs.Utf8.{Utf8, utf8, utf8_start, utf8_first, utf8_begins, utf8_trail};
ghost use Rattle.decoder_core.specs.{Pending.IsPending, Steps.bytes_of, Utf8Laws.utf8_falls, Utf8Laws.utf8_counts};
ghost use Rattle.std.proofs.Common.{rules};

use crate::few::Few;
use crate::forms::{finish, give, give_one, hold, restore};
use crate::handler::{Handled, Handler};
use crate::item::Item;
use crate::utf8_own::utf8_own;
use std::marker::Model;

/// The state of the UTF-8 decoder between two bytes. Contracts see the Standard's five values.
#[derive(Clone, Copy, PartialEq, Eq, Debug)]
pub struct Utf8State {
    code_point: u32,
    seen: u8,
    needed: u8,
    lower: u8,
    upper: u8,
}

impl Model for Utf8State {
    ghost use Rattle.decoder_core.specs.{Utf8.Utf8, Pending.IsPending};

    ghost Value = { Utf8 };

    ghost view = { λ s. record { code_point = s.code_point; seen = s.seen; needed = s.needed; lower = s.lower; upper = s.upper } };

    ghost invariant = { λ s. IsPending s.code_point s.seen s.needed s.lower s.upper };

    ghost inverse = { λ s. record { code_point = s.code_point; seen = s.seen; needed = s.needed; lower = s.lower; upper = s.upper } };
}

impl Utf8State {
    /// Nothing is pending.
    fn idle() -> Utf8State
        ensures { result ≡ utf8_start }
    {
        Utf8State {
            code_point: 0,
            seen: 0,
            needed: 0,
            lower: 0x80,
            upper: 0xBF,
        }
    }
}

/// The UTF-8 decoder (Encoding Standard, "UTF-8 decoder"), without a byte order mark.
#[derive(Clone, Copy, PartialEq, Eq, Debug)]
pub struct Utf8Decoder;

impl Handler for Utf8Decoder {
    type State = Utf8State;

    ghost table = { λ _. utf8 };

    ghost initial = { λ _. utf8_start };

    fn start_state(&self) -> Utf8State {
        Utf8State::idle()
    }

    #[inline(always)]
    fn take_own(&self, state: Utf8State, bytes: &[u8]) -> usize {
        if state == Utf8State::idle() {
            utf8_own(bytes)
        } else {
            0
        }
    }

    // In the loop over the bytes.
    #[inline(always)]
    fn turn(&self, state: Utf8State, byte: Option<u8>) -> Handled<Utf8State> {
        match byte {
            Some(byte) if state.needed == 0 => first(byte),
            Some(byte) if state.lower <= byte && byte <= state.upper => trail(state, byte),
            Some(byte) => restore(Utf8State::idle(), Item::Error, Few::One(byte)),
            None if state.needed == 0 => finish(state),
            None => give(Utf8State::idle(), Item::Error),
        }
    }

    ghost ends = { λ _. utf8_falls };

    ghost counts = { λ _. utf8_counts };

    ghost exact = { Prim.search rules };
}

/// A byte while no byte is needed.
fn first(byte: u8) -> Handled<Utf8State>
    ensures state { result.state ≡ (utf8_first byte).state }
    ensures answer { result.answer ≡ (utf8_first byte).answer }
    ensures back { bytes_of result.back ≡ (utf8_first byte).back }
{
    match byte {
        0..=0x7F => give_one(Utf8State::idle(), u32::from(byte)),
        0xC2..=0xDF => begins(byte - 0xC0, 1, 0x80, 0xBF),
        0xE0..=0xEF => {
            let lower = if byte == 0xE0 { 0xA0 } else { 0x80 };
            let upper = if byte == 0xED { 0x9F } else { 0xBF };
            begins(byte - 0xE0, 2, lower, upper)
        }
        0xF0..=0xF4 => {
            let lower = if byte == 0xF0 { 0x90 } else { 0x80 };
            let upper = if byte == 0xF4 { 0x8F } else { 0xBF };
            begins(byte - 0xF0, 3, lower, upper)
        }
        _ => give(Utf8State::idle(), Item::Error),
    }
}

/// A lead byte whose number of trail bytes is `needed`.
fn begins(code_point: u8, needed: u8, lower: u8, upper: u8) -> Handled<Utf8State>
    requires { IsPending code_point 0 needed lower upper }
    ensures state { result.state ≡ (utf8_begins code_point needed lower upper).state }
    ensures answer { result.answer ≡ (utf8_begins code_point needed lower upper).answer }
    ensures back { bytes_of result.back ≡ (utf8_begins code_point needed lower upper).back }
{
    hold(Utf8State {
        code_point: u32::from(code_point),
        seen: 0,
        needed,
        lower,
        upper,
    })
}

/// A trail byte within its boundaries.
fn trail(state: Utf8State, byte: u8) -> Handled<Utf8State>
    requires { 0 < state.needed × state.lower ≤ byte × byte ≤ state.upper }
    ensures state { result.state ≡ (utf8_trail state (64 * state.code_point + (byte - 0x80))).state }
    ensures answer { result.answer ≡ (utf8_trail state (64 * state.code_point + (byte - 0x80))).answer }
    ensures back { bytes_of result.back ≡ (utf8_trail state (64 * state.code_point + (byte - 0x80))).back }
{
    let code_point = 64 * state.code_point + u32::from(byte - 0x80);
    let seen = state.seen + 1;
    if seen == state.needed {
        return give_one(Utf8State::idle(), code_point);
    }
    hold(Utf8State {
        code_point,
        seen,
        needed: state.needed,
        lower: 0x80,
        upper: 0xBF,
    })
}
