//! The items of one step.
ghost use Rattle.decoder_core.specs.Steps.{alone};
ghost use Rattle.std.specs.Prelude.{◌≡◌, ◌+◌, ◌<◌, ◌++◌, [], ◌∷◌, length};

use crate::item::{Ended, Item};
use std::marker::Model;

/// The storage of a short list. For most steps it is empty or one item, and then eight pairs aren't
/// written.
#[derive(Drop)]
pub enum Held {
    /// No item.
    Zero,
    /// One item.
    One(Ended),
    /// Two items or more.
    More(Many),
}

/// The first `len` of eight places.
#[derive(Drop)]
pub struct Many {
    /// The items, and others that don't count.
    pub all: [Ended; 8],
    /// The number of items that count.
    pub len: u8,
}

/// The items of one step, at most eight. Contracts see the list.
#[derive(Drop)]
pub struct Items {
    held: Held,
}

impl Model for Items {
    ghost use Rattle.std.specs.Prelude.{List};
    ghost use Rattle.decoder_core.specs.{declared.item.Ended.Ended, Steps.held_list, Steps.HeldFits};

    ghost Value = { List Ended };

    ghost view = { λ s. held_list s.held };

    ghost invariant = { λ s. HeldFits s.held };
}

impl Items {
    /// No item.
    pub fn none() -> Items
        ensures { result ≡ [] }
    {
        Items { held: Held::Zero }
    }

    /// Makes a list of one item, with the number of bytes after its end. These bytes were read so
    /// far.
    pub fn one(item: Item, back: u8) -> Items
        ensures { result ≡ record { item = item; back = back } ∷ [] }
    {
        Items {
            held: Held::One(Ended { item, back }),
        }
    }

    /// Makes a list of the item, if any, with no byte after its end.
    pub fn alone(item: Option<Item>) -> Items
        ensures { result ≡ alone item }
    {
        match item {
            Some(item) => Items::one(item, 0),
            None => Items::none(),
        }
    }

    /// Adds an item at the end.
    pub fn push(&mut self, item: Item, back: u8)
        requires { length self.old < 8 }
        ensures { self.new ≡ self.old ++ record { item = item; back = back } ∷ [] }
    {
        let next = Ended { item, back };
        match &mut self.held {
            Held::Zero => self.held = Held::One(next),
            Held::One(first) => {
                let mut all = [next; 8];
                all[0] = *first;
                self.held = Held::More(Many { all, len: 2 });
            }
            Held::More(many) => {
                many.all[many.len as usize] = next;
                many.len += 1;
            }
        }
    }

    /// The items in order.
    pub fn as_slice(&self) -> &[Ended]
        ensures { result.now ≡ self.now }
    {
        match &self.held {
            Held::Zero => &[],
            Held::One(only) => std::slice::from_ref(only),
            Held::More(many) => &many.all[..many.len as usize],
        }
    }
}
