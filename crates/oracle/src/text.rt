//! Texts with the places of their code points.

use codec::{AnyDecoder, Sniffed, sniff};
use decoder_core::{Item, decode_parts, meter};
use enc_names::{Place, Setting};
use index_loader::Indexes;
use std::alloc::Global;

/// The result of decoding bytes from scratch: the code points, each with the place of its item.
#[derive(Drop)]
pub struct PlacedText {
    /// The code points.
    pub chars: Vec<char>,
    /// The places.
    pub places: Vec<Place>,
    /// The numbers of the code points that are errors.
    pub errors: Vec<usize>,
}

impl PlacedText {
    /// The text of these bytes under a setting. `None` if an index file isn't loaded or memory is refused.
    pub fn of(
        alloc: Global,
        indexes: &Indexes,
        setting: Setting,
        bytes: &[u8],
    ) -> Option<PlacedText> {
        let decoder = AnyDecoder::under(indexes, setting)?;
        let Sniffed { bom_len, .. } = sniff(setting, bytes);
        let items = decode_parts(alloc, &decoder, bytes, bom_len, &[], &mut meter()).ok()?;
        let mut text = PlacedText {
            chars: Vec::new(alloc),
            places: Vec::new(alloc),
            errors: Vec::new(alloc),
        };
        for placed in &items {
            let place = Place {
                from: placed.from,
                to: placed.to,
            };
            text.take(placed.item, place)?;
        }
        Some(text)
    }

    /// Takes an item.
    fn take(&mut self, item: Item, place: Place) -> Option<()> {
        match item {
            Item::One(c) => self.push(c.to_char(), place),
            Item::Two(first, second) => {
                self.push(first.to_char(), place)?;
                self.push(second.to_char(), place)
            }
            Item::Error => {
                self.errors.push(self.chars.len()).ok()?;
                self.push(char::REPLACEMENT_CHARACTER, place)
            }
        }
    }

    /// Takes a code point.
    fn push(&mut self, c: char, place: Place) -> Option<()> {
        self.chars.push(c).ok()?;
        self.places.push(place).ok()
    }
}
