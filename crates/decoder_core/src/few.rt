//! Bytes that a handler puts back.
ghost use Rattle.std.specs.Prelude.{◌≡◌, ◌+◌, ◌≤◌, ◌<◌, ◌++◌, ◌∷◌, length};
ghost use Rattle.decoder_core.specs.{Steps.bytes_of, Queue.front, Queue.behind};

/// The bytes that a handler puts back at the front of the queue, in order.
#[derive(Clone, Copy, PartialEq, Eq, Debug)]
pub enum Few {
    /// No byte.
    Zero,
    /// The byte that was read, as most turns that put any back.
    One(u8),
    /// Two bytes.
    Two(u8, u8),
    /// Three bytes.
    Three(u8, u8, u8),
    /// Four bytes: no table here puts back more than three, but the general bound needs it.
    Four(u8, u8, u8, u8),
}

impl Few {
    /// The number of bytes.
    pub(crate) fn count(self) -> u8
        ensures { result ≡ length (bytes_of self) }
    {
        match self {
            Few::Zero => 0,
            Few::One(..) => 1,
            Few::Two(..) => 2,
            Few::Three(..) => 3,
            Few::Four(..) => 4,
        }
    }

    /// Splits these bytes after the first.
    pub(crate) fn split(self) -> (Option<u8>, Few)
        ensures front { result.0 ≡ front (bytes_of self) }
        ensures behind { bytes_of result.1 ≡ behind (bytes_of self) }
    {
        match self {
            Few::Zero => (None, Few::Zero),
            Few::One(a) => (Some(a), Few::Zero),
            Few::Two(a, b) => (Some(a), Few::One(b)),
            Few::Three(a, b, c) => (Some(a), Few::Two(b, c)),
            Few::Four(a, b, c, d) => (Some(a), Few::Three(b, c, d)),
        }
    }

    /// One byte in front.
    fn with(self, byte: u8) -> Few
        requires { length (bytes_of self) < 4 }
        ensures { bytes_of result ≡ byte ∷ bytes_of self }
    {
        match self {
            Few::Zero => Few::One(byte),
            Few::One(a) => Few::Two(byte, a),
            Few::Two(a, b) => Few::Three(byte, a, b),
            Few::Three(a, b, c) => Few::Four(byte, a, b, c),
            Few::Four(..) => unreachable!(),
        }
    }

    /// Puts these bytes before others.
    pub(crate) fn before(self, rest: Few) -> Few
        requires { length (bytes_of self ++ bytes_of rest) ≤ 4 }
        ensures { bytes_of result ≡ bytes_of self ++ bytes_of rest }
    {
        match self {
            Few::Zero => rest,
            Few::One(a) => rest.with(a),
            Few::Two(a, b) => rest.with(b).with(a),
            Few::Three(a, b, c) => rest.with(c).with(b).with(a),
            Few::Four(a, b, c, d) => rest.with(d).with(c).with(b).with(a),
        }
    }
}
