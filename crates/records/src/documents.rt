//! The documents of a gateway, written as the head of a record.
ghost use Rattle.std.specs.Prelude.{◌≡◌, ◌+◌, ◌∷◌, [], ◌++◌, OnOk, string_bytes};
ghost use Rattle.std.specs.FinMap.{entries};
ghost use Rattle.base64.specs.GeneralPurpose.{IsBytes};
ghost use Rattle.records.specs.Compaction.{DocumentsAreHeads, EditsAreForgotten, HeadsLeadOn, IsCompactable, IsOfBytes};
ghost use Rattle.records.specs.Compaction.{IsOfDocument, IsOfDocuments, ObeyedAreGood, PlayedAreHeads, Puts, adopt_words};
ghost use Rattle.records.specs.Compaction.{bom_word, compact_failures, described_words, lined, part_words};

use base64::engine::general_purpose::STANDARD;
use connections::{Gateway, law_lines, law_replies_in_order};
use desk::Held;
use devices::{Failed, Outlet, write_all};
use enc_names::{Bom, Setting};
use gateway::law_heads;
use itoa::Buffer;
use std::alloc::{AllocError, Global};

/// The most bytes of a part.
const MOST_OF_PART: u64 = 49_152;

/// The reason why not all documents were written.
#[derive(Clone, Copy, PartialEq, Eq, Debug)]
pub enum CompactFault {
    /// The device failed.
    Write,
    /// Memory ran out for a line.
    OutOfMemory,
}

/// Writes the documents of a gateway as the head of a record (`writes`). Each document has its
/// bytes in parts, and then the line that adopts it. The call holds one line in memory at a time.
/// If it succeeds, another gateway with the same index files could adopt each document
/// (`compactable`). One write failed if the fault is `Write`, and otherwise none (`failures`).
pub fn compact<W: Outlet>(
    alloc: Global,
    gateway: &Gateway<'_>,
    out: &mut W,
) -> Result<(), CompactFault>
    ensures writes { Puts result (IsOfDocuments (entries gateway.now.office.documents)) (W.took out.old).written (W.took out.new).written }
    ensures failures { (W.took out.new).failures ≡ (W.took out.old).failures + compact_failures result }
    ensures compactable { OnOk result (IsCompactable gateway.now.office) }
{
    let desk = gateway.desk();
    let mut line = String::new(alloc);
    'documents: for number in 0..desk.len() {
        let Some(held) = desk.held(number) else {
            return Ok(());
        };
        match put_document(&mut line, &held, out) {
            Ok(()) => {}
            Err(fault) => return Err(fault),
        }
    }
    Ok(())
}

/// Proves that `compact` writes a head that leads to the same documents. The call does nothing. The
/// gateway that plays the head begins with the same index files:
///
/// - It does so if the names of the documents have 1 to 64 bytes (`heads`). It also does so if a
///   record led to the documents on a gateway that began with none (`played`).
/// - A head leads to one desk (`on`). No line of a head that can be obeyed is bad, wherever the
///   head is cut (`good`).
/// - The edits of a document since an earlier revision are forgotten (`forgotten`).
pub fn law_compact()
    ensures heads { DocumentsAreHeads }
    ensures played { PlayedAreHeads }
    ensures on { HeadsLeadOn }
    ensures good { ObeyedAreGood }
    ensures forgotten { EditsAreForgotten }
{
    law_lines();
    law_heads();
    law_replies_in_order();
}

/// Writes the lines of a document.
fn put_document<W: Outlet>(
    line: &mut String,
    held: &Held<'_, '_>,
    out: &mut W,
) -> Result<(), CompactFault>
    ensures writes { Puts result (IsOfDocument held.now) (W.took out.old).written (W.took out.new).written }
    ensures failures { (W.took out.new).failures ≡ (W.took out.old).failures + compact_failures result }
{
    match put_parts(line, held, out) {
        Ok(()) => {}
        Err(fault) => return Err(fault),
    }
    put_adoption(line, held.name(), held.setting(), held.revision(), out)
}

/// Writes the lines of a document's bytes.
fn put_parts<W: Outlet>(
    line: &mut String,
    held: &Held<'_, '_>,
    out: &mut W,
) -> Result<(), CompactFault>
    ensures writes { Puts result (IsOfBytes held.now.1.bytes) (W.took out.old).written (W.took out.new).written }
    ensures failures { (W.took out.new).failures ≡ (W.took out.old).failures + compact_failures result }
{
    let len = u64::from(held.len());
    let mut at = 0;
    'parts: while at < len {
        let part = match held.part(at, MOST_OF_PART) {
            Ok(part) => part,
            Err(_) => return Err(CompactFault::OutOfMemory),
        };
        match put_part(line, &part, out) {
            Ok(()) => {}
            Err(fault) => return Err(fault),
        }
        at += MOST_OF_PART;
    }
    Ok(())
}

/// Writes the line of a part.
fn put_part<W: Outlet>(line: &mut String, part: &[u8], out: &mut W) -> Result<(), CompactFault>
    ensures bytes { IsBytes part.now }
    ensures writes { Puts result (λ text. text ≡ lined (part_words part.now ∷ [])) (W.took out.old).written (W.took out.new).written }
    ensures failures { (W.took out.new).failures ≡ (W.took out.old).failures + compact_failures result }
{
    line.clear();
    match append_part(line, part) {
        Ok(()) => write_line(line, out),
        Err(AllocError) => Err(CompactFault::OutOfMemory),
    }
}

/// Writes the line that adopts a document.
fn put_adoption<W: Outlet>(
    line: &mut String,
    name: &str,
    setting: Setting,
    revision: u64,
    out: &mut W,
) -> Result<(), CompactFault>
    ensures bytes { IsBytes name.now }
    ensures writes { Puts result (λ text. text ≡ lined (adopt_words name.now setting revision ∷ [])) (W.took out.old).written (W.took out.new).written }
    ensures failures { (W.took out.new).failures ≡ (W.took out.old).failures + compact_failures result }
{
    line.clear();
    match append_adoption(line, name.as_bytes(), setting, revision) {
        Ok(()) => write_line(line, out),
        Err(AllocError) => Err(CompactFault::OutOfMemory),
    }
}

/// Writes a line.
fn write_line<W: Outlet>(line: &str, out: &mut W) -> Result<(), CompactFault>
    ensures writes { Puts result (λ text. text ≡ line.now) (W.took out.old).written (W.took out.new).written }
    ensures failures { (W.took out.new).failures ≡ (W.took out.old).failures + compact_failures result }
{
    match write_all(out, line.as_bytes()) {
        Ok(()) => Ok(()),
        Err(Failed) => Err(CompactFault::Write),
    }
}

/// Appends the line of a part.
fn append_part(text: &mut String, part: &[u8]) -> Result<(), AllocError>
    ensures { OnOk result (string_bytes text.new ≡ string_bytes text.old ++ (part_words part.now ++ 10 ∷ [])) }
{
    text.push_str("part ")?;
    STANDARD.encode_string(part, text)?;
    text.push_str("\n")
}

/// Appends the line that adopts a document.
fn append_adoption(
    text: &mut String,
    name: &[u8],
    setting: Setting,
    revision: u64,
) -> Result<(), AllocError>
    ensures { OnOk result (string_bytes text.new ≡ string_bytes text.old ++ (adopt_words name.now setting revision ++ 10 ∷ [])) }
{
    text.push_str("adopt ")?;
    STANDARD.encode_string(name, text)?;
    text.push_str(" ")?;
    append_described(text, setting, revision)
}

/// Appends the encoding, the rule for a BOM, and the revision of a document.
fn append_described(text: &mut String, setting: Setting, revision: u64) -> Result<(), AllocError>
    ensures { OnOk result (string_bytes text.new ≡ string_bytes text.old ++ (described_words setting revision ++ 10 ∷ [])) }
{
    text.push_str(setting.given.name())?;
    text.push_str(" ")?;
    text.push_str(bom_word(setting.bom))?;
    text.push_str(" ")?;
    text.push_str(Buffer::new().format(revision))?;
    text.push_str("\n")
}

/// The word for the treatment of a BOM.
fn bom_word(bom: Bom) -> &'static str
    ensures { result.now ≡ bom_word bom }
{
    match bom {
        Bom::Sniff => "sniff",
        Bom::Keep => "keep",
    }
}
