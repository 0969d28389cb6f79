//! Items with their places.
use crate::item::Item;

/// An item and the bytes `from..to` of the document that it comes from. An item may have no byte.
#[derive(Clone, Copy, PartialEq, Eq, Debug)]
pub struct Placed {
    /// The item.
    pub item: Item,
    /// The number of its first byte, counted from 0.
    pub from: u64,
    /// The number of the first byte after it.
    pub to: u64,
}
