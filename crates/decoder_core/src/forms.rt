//! The forms of a decoder's turns, for a handler to answer.
ghost use Rattle.std.specs.Prelude.{◌≡◌, []};
ghost use Rattle.std.specs.Char.{IsScalar};
ghost use Rattle.decoder_core.specs.declared.handler.Answer.TheVariants.{Nothing, Gives, Finished};
ghost use Rattle.decoder_core.specs.{declared.item.Item.TheVariants.One, Steps.bytes_of, Forms.found};

use crate::few::Few;
use crate::handler::{Answer, Handled};
use crate::item::Item;
use enc_names::Scalar;

/// Makes a turn that gives an item (`answer`). It has this state (`state`) and puts nothing back
/// (`back`).
pub fn give<S>(next: S, item: Item) -> Handled<S>
    ensures state { result.state ≡ next }
    ensures answer { result.answer ≡ Gives item }
    ensures back { bytes_of result.back ≡ [] }
{
    all_read(next, Answer::Gives(item))
}

/// Makes a turn that gives the code point with this number (`answer`). It has this state (`state`)
/// and puts nothing back (`back`).
pub fn give_one<S>(next: S, code_point: u32) -> Handled<S>
    requires { IsScalar code_point }
    ensures state { result.state ≡ next }
    ensures answer { result.answer ≡ Gives (One code_point) }
    ensures back { bytes_of result.back ≡ [] }
{
    give(next, Item::One(scalar(code_point)))
}

/// Makes a turn that gives an item (`answer`) and puts bytes back (`back`). It has this state
/// (`state`).
pub fn restore<S>(next: S, item: Item, back: Few) -> Handled<S>
    ensures state { result.state ≡ next }
    ensures answer { result.answer ≡ Gives item }
    ensures back { result.back ≡ back }
{
    Handled {
        state: next,
        answer: Answer::Gives(item),
        back,
    }
}

/// Makes a turn that holds or ignores the byte that it read (`answer`) ("continue"). It has this
/// state (`state`) and puts nothing back (`back`).
pub fn hold<S>(next: S) -> Handled<S>
    ensures state { result.state ≡ next }
    ensures answer { result.answer ≡ Nothing }
    ensures back { bytes_of result.back ≡ [] }
{
    all_read(next, Answer::Nothing)
}

/// Makes a turn that finishes (`answer`). It has this state (`state`) and puts nothing back
/// (`back`).
pub fn finish<S>(next: S) -> Handled<S>
    ensures state { result.state ≡ next }
    ensures answer { result.answer ≡ Finished }
    ensures back { bytes_of result.back ≡ [] }
{
    all_read(next, Answer::Finished)
}

/// A turn that puts no bytes back.
fn all_read<S>(state: S, answer: Answer) -> Handled<S>
    ensures state { result.state ≡ state }
    ensures answer { result.answer ≡ answer }
    ensures back { bytes_of result.back ≡ [] }
{
    Handled {
        state,
        answer,
        back: Few::Zero,
    }
}

/// The item of what was looked up; null is an error.
pub fn found(code_point: Option<Scalar>) -> Item
    ensures { result ≡ found code_point }
{
    match code_point {
        Some(code_point) => Item::One(code_point),
        None => Item::Error,
    }
}

/// The scalar value of this number.
pub fn scalar(value: u32) -> Scalar
    requires { IsScalar value }
    ensures { result ≡ value }
{
    match Scalar::new(value) {
        Some(scalar) => scalar,
        None => unreachable!(),
    }
}
