//! Labels: the texts by which a client names an encoding.
ghost use Rattle.std.specs.Prelude.{◌≡◌, IfOk, IsOkUnless};
ghost use Rattle.enc_names.specs.LabelAnswers.{AnswersFile};
ghost use Rattle.enc_names.specs.LabelEntries.{table_of};
ghost use Rattle.enc_names.specs.Labels.{labels_of, lookup_in, matches, name_labels};

mod file;

use crate::encoding::Encoding;
use crate::json::parse_json;
use std::alloc::{AllocError, Global};
use std::marker::Model;

/// The reason why labels aren't available.
#[derive(Clone, Copy, PartialEq, Eq, Debug)]
pub enum LabelFault {
    /// The label file isn't a JSON text. A leading byte order mark, invalid UTF-8 and more than 127
    /// levels of nesting are faults too.
    NotJson,
    /// The label file's JSON has another shape. It must be an array of objects that each have an
    /// array `encodings` of objects with a text `name` and an array `labels` of texts.
    BadShape,
    /// An allocation failed.
    OutOfMemory,
}

impl From<AllocError> for LabelFault {
    ghost use Rattle.std.specs.Prelude.{◌≡◌};
    ghost use Rattle.enc_names.specs.declared.labels.LabelFault.TheVariants.{OutOfMemory};

    ghost from_gives = { λ _ fault. fault ≡ OutOfMemory };

    fn from(_: AllocError) -> LabelFault {
        LabelFault::OutOfMemory
    }
}

/// One label and the encoding that it names.
#[derive(Drop)]
struct Label {
    text: String,
    encoding: Encoding,
}

/// Labels in the order in which they count. Contracts see the list of their texts' bytes, each
/// with its encoding.
#[derive(Drop)]
pub struct Labels {
    entries: Vec<Label>,
}

impl Model for Labels {
    ghost use Rattle.enc_names.specs.Labels.{LabelTable};

    ghost Value = { LabelTable };

    ghost use Rattle.enc_names.specs.LabelEntries.{table_of};

    ghost view = { λ s. table_of s.entries.items };
}

impl Labels {
    /// Makes the labels that are each encoding's own name, and no others (`ok`). Only memory can
    /// run out (`err`).
    pub fn names(alloc: Global) -> Result<Labels, LabelFault>
        ensures ok { IfOk result (λ labels. labels ≡ name_labels) }
        ensures err { IsOkUnless result LabelFault.OutOfMemory }
    {
        let entries = names_of(alloc, &Encoding::ALL)?;
        Ok(Labels { entries })
    }

    /// The labels of a label file alone, in the file's order.
    ///
    /// The file has the form of the Encoding Standard's `encodings.json`; other fields are ignored.
    /// Names are compared without ASCII case, and the labels of a name that no encoding has are
    /// left out once the whole file's shape is known to be good. Labels are kept as written,
    /// whitespace included.
    ///
    /// # Errors
    ///
    /// `NotJson` before `BadShape`; `OutOfMemory` can replace any answer.
    pub fn from_json(alloc: Global, bytes: &[u8]) -> Result<Labels, LabelFault>
        ensures { AnswersFile bytes.now result }
    {
        let value = parse_json(alloc, bytes)?.ok_or(LabelFault::NotJson)?;
        let mut entries = Vec::new(alloc);
        file::add_file(alloc, &mut entries, &value)?;
        Ok(Labels { entries })
    }

    /// Finds the encoding of the first label that matches a text. ASCII whitespace is stripped from
    /// the text's ends, and letters are compared without ASCII case (Encoding Standard, "get an
    /// encoding").
    pub fn lookup(&self, label: &[u8]) -> Option<Encoding>
        ensures { result ≡ lookup_in self.now label.now }
    {
        for entry in &self.entries {
            if is_label(label, entry.text.as_bytes()) {
                return Some(entry.encoding);
            }
        }
        None
    }
}

/// Each encoding's name as its label.
fn names_of(alloc: Global, encodings: &[Encoding]) -> Result<Vec<Label>, LabelFault>
    ensures ok { IfOk result (λ entries. table_of entries.items ≡ labels_of encodings.now) }
    ensures err { IsOkUnless result LabelFault.OutOfMemory }
{
    let mut entries = Vec::new(alloc);
    for encoding in encodings {
        let text = String::from_str(alloc, encoding.name())?;
        let encoding = *encoding;
        entries
            .push(Label { text, encoding })
            .map_err(AllocError::from)?;
    }
    Ok(entries)
}

/// Whether the text looked up is this label.
fn is_label(text: &[u8], label: &[u8]) -> bool
    ensures { result ≡ matches text.now label.now }
{
    text.trim_ascii().eq_ignore_ascii_case(label)
}
