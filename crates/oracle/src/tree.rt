//! A tree of sums over concrete items, with edits at any place.

mod item;
mod items;
mod load;

pub use item::{WeightedItem, light};
pub use items::{Items, built, put, swap, take};
pub use load::{Load, LoadAxis};
