//! Unicode scalar values.
ghost use Rattle.std.specs.Prelude.{◌≡◌};
ghost use Rattle.std.specs.Char.{IsScalar};
ghost use Rattle.std.specs.Option.{SomeIff};

use std::marker::Model;

/// A Unicode scalar value (Unicode, chapter 3, D76): a code point from 0 to 10FFFF, except the
/// surrogates D800 to DFFF. Contracts see its number.
#[derive(Clone, Copy, PartialEq, Eq, Debug)]
pub struct Scalar {
    value: char,
}

impl Model for Scalar {
    ghost use Rattle.std.specs.Prelude.{ℕ};
    ghost use Rattle.std.specs.Char.{IsScalar};

    ghost Value = { ℕ };

    ghost view = { λ s. s.value };

    ghost invariant = { λ s. IsScalar s.value };

    ghost inverse = { λ n. record { value = n } };
}

impl Scalar {
    /// The scalar value with this number, or `None` for surrogates and larger numbers.
    pub fn new(value: u32) -> Option<Scalar>
        ensures { SomeIff result (IsScalar value) value }
    {
        match char::from_u32(value) {
            Some(value) => Some(Scalar { value }),
            None => None,
        }
    }

    /// The scalar value's number (`value`): from 0 to 10FFFF and not a surrogate (`scalar`).
    pub fn get(self) -> u32
        ensures value { result ≡ self }
        ensures scalar { IsScalar result }
    {
        self.value as u32
    }

    /// The same scalar value as std's `char`.
    pub fn to_char(self) -> char
        ensures { result ≡ self }
    {
        self.value
    }
}

impl From<char> for Scalar {
    ghost use Rattle.std.specs.Prelude.{◌≡◌};

    ghost from_gives = { λ value scalar. scalar ≡ value };

    fn from(value: char) -> Scalar {
        Scalar { value }
    }
}
