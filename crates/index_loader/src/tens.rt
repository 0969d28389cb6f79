//! Pointers of five places.
ghost use Rattle.std.specs.Prelude.{IfSome};
ghost use Rattle.std.specs.Int.{to_le_bytes, w32};
ghost use Rattle.index_loader.specs.Plain.{IsTens};

use crate::field::behind_spaces;
use crate::plain::leading_number;
use std::marker::Model;

/// The first four of a pointer's five places, with ten times their number. The places are spaces
/// followed by digits. Up to ten rows in sequence share them, and only the last digit of these rows is
/// read. Contracts see the four bytes.
#[derive(Drop)]
pub(crate) struct Tens {
    places: u32,
    number: u32,
}

impl Model for Tens {
    ghost use Rattle.std.specs.Prelude.{List, ℕ};
    ghost use Rattle.std.specs.Int.{to_le_bytes, w32};
    ghost use Rattle.index_loader.specs.Plain.{IsTens};

    ghost Value = { List ℕ };

    ghost view = { λ t. to_le_bytes w32 t.places };

    ghost invariant = { λ t. IsTens (to_le_bytes w32 t.places) t.number };
}

impl Tens {
    /// The places of the first ten pointers: four spaces.
    pub(crate) fn first() -> Tens {
        Tens {
            places: u32::from_le_bytes(*b"    "),
            number: 0,
        }
    }

    /// Ten times the number of four places, if they are spaces followed by digits. The first place
    /// is the lowest. The places are remembered.
    // In the loop over the lines of a file.
    #[inline(always)]
    pub(crate) fn number(&mut self, places: u32) -> Option<u32>
        ensures { IfSome result (λ number. IsTens (to_le_bytes w32 places) number) }
    {
        if places != self.places {
            let number = number_of(places)?;
            *self = Tens { places, number };
        }
        Some(self.number)
    }
}

/// Ten times the number of four places.
fn number_of(places: u32) -> Option<u32>
    ensures { IfSome result (λ number. IsTens (to_le_bytes w32 places) number) }
{
    let bytes = places.to_le_bytes();
    let digits = behind_spaces(&bytes);
    let (number, len) = leading_number(10, digits);
    if len == digits.len() && number < 10_000 {
        Some(number * 10)
    } else {
        None
    }
}
