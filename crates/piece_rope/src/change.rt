//! A change of the text.

use crate::pieces::Pieces;
use state_memo::Outcome;

/// A change of the text of some pieces and of the end after them. `text` replaces the code points
/// `i..j`.
#[derive(Clone, Copy)]
pub(crate) struct Change<'a> {
    pub pieces: &'a Pieces,
    pub tail: &'a Outcome,
    pub i: u64,
    pub j: u64,
    pub text: &'a str,
}
