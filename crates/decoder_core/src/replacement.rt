//! The replacement decoder.
ghost use Rattle.std.proofs.Common.{rules};
ghost use Rattle.decoder_core.specs.{declared.replacement.ReplacementState.TheVariants.Unread, Replacement.replacement};
ghost use Rattle.decoder_core.specs.ReplacementLaws.{replacement_falls, replacement_counts};

use crate::forms::{finish, give};
use crate::handler::{Handled, Handler};
use crate::item::Item;

/// The state of the replacement decoder between two bytes.
#[derive(Clone, Copy, PartialEq, Eq, Debug)]
pub enum ReplacementState {
    /// No byte was read.
    Unread,
    /// The first byte was read, which is an error.
    ErrorReturned,
    /// The decoder is finished, and takes no notice of the bytes to come.
    Done,
}

/// The replacement decoder (Encoding Standard, "replacement decoder"): one error, and then a tail
/// that belongs to no item.
#[derive(Clone, Copy, PartialEq, Eq, Debug)]
pub struct ReplacementDecoder;

impl Handler for ReplacementDecoder {
    type State = ReplacementState;

    ghost table = { λ _. replacement };

    ghost initial = { λ _. Unread };

    fn start_state(&self) -> ReplacementState {
        ReplacementState::Unread
    }

    fn turn(&self, state: ReplacementState, byte: Option<u8>) -> Handled<ReplacementState> {
        match (state, byte) {
            (_, None) => finish(state),
            (ReplacementState::Unread, Some(_)) => {
                give(ReplacementState::ErrorReturned, Item::Error)
            }
            (_, Some(_)) => finish(ReplacementState::Done),
        }
    }

    ghost ends = { λ _. replacement_falls };

    ghost counts = { λ _. replacement_counts };

    ghost exact = { λ a b h. Prim.search rules };
}
