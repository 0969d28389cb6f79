//! The op `text`.
ghost use Rattle.std.specs.Prelude.{◌≡◌, None, Err, MatchResult};
ghost use Rattle.piece_rope.specs.Document.{first_error};
ghost use Rattle.desk.specs.{OpenDocuments.entry_of, Text.text_reply, declared.text_mode.TextMode.TheVariants.Fatal};

use crate::question::{Fault, Global, Labels, OpenDocument, Question, Reply};
use crate::reply::ReplyText;
use crate::text_mode::TextMode;

/// Returns the code points `from..to` of a document's text.
#[derive(Clone, Copy)]
pub struct Text<'a> {
    /// The document's name.
    pub doc: &'a str,
    /// Number of the first code point, counted from 0.
    pub from: u64,
    /// Number of the code point at which to stop, which isn't returned.
    pub to: u64,
    /// Whether errors are read as U+FFFD, or refused.
    pub mode: TextMode,
}

/// The reply to `text`.
#[derive(Drop)]
pub struct TextReply {
    /// The document's revision.
    pub rev: u64,
    /// The code points; each error is one U+FFFD.
    pub text: ReplyText,
}

impl Question for Text<'_> {
    ghost use Rattle.desk.specs.Commands.{Text};

    ghost asked = { λ q. Text q.from q.to q.mode };

    fn ask(&self, _: Global, _: &Labels, opened: &OpenDocument<'_>) -> Result<Reply, Fault> {
        if let TextMode::Fatal = self.mode {
            opened.without_errors(self.from, self.to)?;
        }
        let text = opened.document.text(self.from, self.to)?;
        Ok(Reply::Text(TextReply {
            rev: opened.revision,
            text: ReplyText::new(text),
        }))
    }
}

impl OpenDocument<'_> {
    /// Refuses a text in mode fatal where the document has an error, and first where the range is
    /// past its end. No text is copied for that.
    fn without_errors(&self, from: u64, to: u64) -> Result<(), Fault>
        ensures { MatchResult result (λ _. first_error self.now.document ≡ None)
            (λ fault. text_reply self.now.document.indexes (entry_of self.now) from to Fatal ≡ Err fault) }
    {
        if from > to {
            return Err(Fault::OutOfRange);
        }
        if to > self.document.lengths().scalars {
            return Err(Fault::OutOfRange);
        }
        match self.document.fatal() {
            Some(place) => Err(Fault::Malformed { place }),
            None => Ok(()),
        }
    }
}
