//! What a client has to send first.

/// The length of the line that lets a client in, without its line feed.
pub const LINE: usize = 76;

/// What a client has to send first. If it sends something else, nothing of it is taken.
#[derive(Clone, Copy)]
pub enum Access {
    /// Nothing: all that it sends is taken.
    Any,
    /// No request of HTTP or TLS, as its first byte tells.
    NoRequest,
    /// A JSON object, as its first byte tells.
    Object,
    /// This line, which isn't taken itself. White space may be within it.
    Line([u8; LINE]),
}
