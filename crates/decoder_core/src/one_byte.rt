//! The state of decoders of one byte a character.

/// The state of a decoder that holds nothing between two bytes.
#[derive(Clone, Copy, PartialEq, Eq, Debug)]
pub enum OneByteState {
    /// Nothing is pending.
    Idle,
}
