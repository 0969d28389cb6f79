//! The op `close`.

/// Closes a document; its name is then free.
#[derive(Clone, Copy)]
pub struct Close<'a> {
    /// The document's name.
    pub doc: &'a str,
}
