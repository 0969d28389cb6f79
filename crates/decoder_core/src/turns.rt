//! A decoder made of its handler: it takes turns until the bytes at hand are used up.
ghost use Rattle.std.specs.Prelude.{◌≡◌, [], ◌∷◌, IfSome};
ghost use Rattle.decoder_core.specs.{Steps.alone, Queue.run, Queue.feed};

use crate::ascii_runs::AsciiRuns;
use crate::bulk::Bulk;
use crate::byte_bulk::take_bytes;
use crate::characters::Characters;
use crate::decoder::{Decoder, Escape, Simple, Step};
use crate::few::Few;
use crate::handler::{Answer, Handled, Handler};
use crate::items::Items;
use crate::pair_bulk::{take_pairs, take_pairs_alone};
use crate::run_bulk::{begins_ascii, own_run, run_bulk};

impl<H: Handler> Decoder for H {
    type State = H::State;

    ghost table = { λ d. H.table d };

    ghost initial = { λ d. H.initial d };

    fn start(&self) -> H::State {
        self.start_state()
    }

    fn step(&self, state: H::State, byte: u8) -> Step<H::State> {
        step_by(self, state, byte)
    }

    // In the loop over the bytes.
    #[inline(always)]
    fn simple_step(&self, state: H::State, byte: u8) -> Option<Simple<H::State>> {
        simple_by(self, state, byte)
    }

    // In the loop over the bytes.
    #[inline(always)]
    fn own_text(&self, state: H::State, bytes: &[u8]) -> usize {
        match self.ascii_runs(state) {
            AsciiRuns::None => self.take_own(state, bytes),
            runs => own_run(self, state, runs, bytes),
        }
    }

    // In the loop over the bytes.
    #[inline(always)]
    fn bulk(&self, state: H::State, bytes: &[u8], text: &mut [u8; 1024]) -> Bulk {
        match (self.ascii_runs(state), self.characters()) {
            (AsciiRuns::None, Characters::Pairs) => take_pairs_alone(self, state, bytes, text),
            (AsciiRuns::None, _) => self.take_bulk(state, bytes, text),
            // A long run of ASCII at the front is taken by itself.
            (AsciiRuns::All, Characters::Bytes) if !begins_ascii(bytes) => {
                take_bytes(self, state, bytes, text)
            }
            (AsciiRuns::All, Characters::Pairs) if !begins_ascii(bytes) => {
                take_pairs(self, state, bytes, text)
            }
            (runs, _) => run_bulk(self, state, runs, bytes, text),
        }
    }

    #[inline(always)]
    fn escape(&self, state: H::State, bytes: &[u8]) -> Option<Escape<H::State>> {
        Handler::escape(self, state, bytes)
    }

    fn finish(&self, state: H::State) -> Step<H::State> {
        finish_by(self, state)
    }

    ghost ends = { λ d. H.ends d };

    ghost exact = { H.exact };
}

/// One step. Most turns put nothing back, and then the step is that turn.
fn step_by<H: Handler>(handler: &H, state: H::State, byte: u8) -> Step<H::State>
    ensures state { result.state ≡ (feed (H.table handler.now) state (byte ∷ [])).state }
    ensures items { result.items ≡ (feed (H.table handler.now) state (byte ∷ [])).items }
{
    match simple_by(handler, state, byte) {
        Some(Simple { state: next, item }) => Step {
            state: next,
            items: Items::alone(item),
        },
        None => turns_over(handler, state, byte),
    }
}

/// One step, if it is one turn.
// In the loop over the bytes.
#[inline(always)]
fn simple_by<H: Handler>(handler: &H, state: H::State, byte: u8) -> Option<Simple<H::State>>
    ensures state { IfSome result (λ simple. simple.state ≡ (feed (H.table handler.now) state (byte ∷ [])).state) }
    ensures items { IfSome result (λ simple. alone simple.item ≡ (feed (H.table handler.now) state (byte ∷ [])).items) }
{
    let Handled {
        state: next,
        answer,
        back,
    } = handler.turn(state, Some(byte));
    match (answer, back) {
        (Answer::Nothing, Few::Zero) => Some(Simple {
            state: next,
            item: None,
        }),
        (Answer::Gives(item), Few::Zero) => Some(Simple {
            state: next,
            item: Some(item),
        }),
        (Answer::Finished, _) => Some(Simple {
            state: next,
            item: None,
        }),
        _ => None,
    }
}

/// Takes one step, by as many turns as reading all put-back bytes needs.
fn turns_over<H: Handler>(handler: &H, state: H::State, byte: u8) -> Step<H::State>
    ensures state { result.state ≡ (feed (H.table handler.now) state (byte ∷ [])).state }
    ensures items { result.items ≡ (feed (H.table handler.now) state (byte ∷ [])).items }
{
    let mut state = state;
    let mut queue = Few::One(byte);
    let mut items = Items::none();
    'turns: loop {
        let (read, rest) = queue.split();
        let Some(byte) = read else {
            return Step { state, items };
        };
        let Handled {
            state: next,
            answer,
            back,
        } = handler.turn(state, Some(byte));
        state = next;
        match answer {
            Answer::Nothing => queue = back.before(rest),
            Answer::Gives(item) => {
                queue = back.before(rest);
                items.push(item, queue.count());
            }
            Answer::Finished => return Step { state, items },
        }
    }
}

/// The end: turns until the handler is finished.
fn finish_by<H: Handler>(handler: &H, state: H::State) -> Step<H::State>
    ensures state { result.state ≡ state }
    ensures items { result.items ≡ run (H.table handler.now) state [] }
{
    let mut reached = state;
    let mut queue = Few::Zero;
    let mut items = Items::none();
    'turns: loop {
        let (byte, rest) = queue.split();
        let Handled {
            state: next,
            answer,
            back,
        } = handler.turn(reached, byte);
        reached = next;
        match answer {
            Answer::Nothing => queue = back.before(rest),
            Answer::Gives(item) => {
                queue = back.before(rest);
                items.push(item, queue.count());
            }
            Answer::Finished => return Step { state, items },
        }
    }
}
