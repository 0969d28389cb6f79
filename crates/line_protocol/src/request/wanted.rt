//! What a request asks.

use desk::{Command, Overview};

/// A request without its number. Its texts are borrowed from the line that it was read from.
#[derive(Drop)]
pub enum Wanted<'a> {
    /// A command for a document.
    Document(Command<'a>),
    /// A question about the desk as a whole.
    Desk(Overview),
}
