//! The op `open`.
ghost use Rattle.std.specs.Prelude.{◌≡◌};
ghost use Rattle.desk.specs.{Commands.asked, Desk.Decides, Documents.reply_of};
ghost use Rattle.desk.specs.declared.ops.Command.TheVariants as commands;

use crate::base64_text::bytes_of;
use crate::desk::Desk;
use crate::fault::Fault;
use crate::ops::Reply;
use enc_names::{Bom, Setting};

/// Opens a document at revision 0.
#[derive(Clone, Copy)]
pub struct Open<'a> {
    /// The new document's name, which must be free.
    pub doc: &'a str,
    /// A label of the encoding.
    pub label: &'a str,
    /// The document's bytes, in base64.
    pub bytes: &'a str,
    /// Whether a BOM is looked for, or its bytes are kept as text.
    pub bom: Bom,
}

impl Desk<'_> {
    /// Opens a document under a name that is free.
    pub(crate) fn open(&mut self, command: &Open<'_>) -> Result<Reply, Fault>
        ensures { Decides self.old (asked (commands.Open command.now)) (reply_of result) self.new }
    {
        let bytes = bytes_of(self.alloc, command.bytes)?;
        if self.documents.has(command.doc) {
            return Err(Fault::NameTaken);
        }
        match self.labels.lookup(command.label.as_bytes()) {
            Some(given) => {
                let setting = Setting::new(given, command.bom);
                self.documents
                    .open(self.alloc, command.doc, setting, &bytes, 0)
            }
            None => Err(Fault::UnknownLabel),
        }
    }
}
