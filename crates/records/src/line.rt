//! The line of an event in a record.
ghost use Rattle.std.specs.Prelude.{◌≡◌, ◌∷◌, [], ◌++◌, OnOk, string_bytes};
ghost use Rattle.std.specs.Fmt.{decimal};
ghost use Rattle.connections.specs.Events.{happening};
ghost use Rattle.records.specs.Lines.{record_of, words_of};

use base64::engine::general_purpose::STANDARD;
use connections::Event;
use itoa::Buffer;
use std::alloc::AllocError;

/// Appends the line of an event to a text.
pub(crate) fn put_line(text: &mut String, event: Event<'_>) -> Result<(), AllocError>
    ensures { OnOk result (string_bytes text.new ≡ string_bytes text.old ++ (words_of (happening event.entry) ++ 10 ∷ [])) }
{
    match event {
        Event::Open(c) => put_numbered(text, "open ", c)?,
        Event::Bytes(c, bytes) => {
            put_numbered(text, "bytes ", c)?;
            text.push_str(" ")?;
            STANDARD.encode_string(bytes, text)?;
        }
        Event::Close(c) => put_numbered(text, "close ", c)?,
    }
    text.push_str("\n")
}

/// Appends the lines of two events.
pub(crate) fn put_lines(
    text: &mut String,
    first: Event<'_>,
    second: Event<'_>,
) -> Result<(), AllocError>
    ensures { OnOk result (string_bytes text.new ≡ string_bytes text.old ++ record_of (happening first.entry ∷ happening second.entry ∷ [])) }
{
    put_line(text, first)?;
    put_line(text, second)
}

/// Appends a word and a number.
fn put_numbered(text: &mut String, word: &str, c: u8) -> Result<(), AllocError>
    ensures { OnOk result (string_bytes text.new ≡ string_bytes text.old ++ (word.now ++ decimal c)) }
{
    text.push_str(word)?;
    text.push_str(Buffer::new().format(c))
}
