//! The op `encode`.
ghost use Rattle.std.specs.Prelude.{ℕ, List, Result};
ghost use Rattle.desk.specs.Encode.{bytes_reply, encode_reply};
ghost use Rattle.desk.specs.{Documents.Gives, OpenDocuments.entry_of};
ghost use Rattle.encoders.specs.{Encode.IsEncoded, declared.fault.EncodeFault.EncodeFault};

use crate::question::{Fault, Global, Labels, OpenDocument, Question, Reply};
use crate::reply::{BytesReply, ReplyList};
use enc_names::Encoding;
use encoders::{EncodeFault, EncodeMode, encode};

/// Returns the code points `from..to` of a document's text, encoded.
#[derive(Clone, Copy)]
pub struct Encode<'a> {
    /// The document's name.
    pub doc: &'a str,
    /// Number of the first code point, counted from 0.
    pub from: u64,
    /// Number of the code point at which to stop, which isn't encoded.
    pub to: u64,
    /// A label of the encoding to encode to.
    pub label: &'a str,
    /// Whether a code point that the encoding lacks is refused, or written as `&#NUMBER;`.
    pub mode: EncodeMode,
}

impl Question for Encode<'_> {
    ghost use Rattle.desk.specs.Commands.{Encode};

    ghost asked = { λ q. Encode q.from q.to q.label.now q.mode };

    fn ask(
        &self,
        alloc: Global,
        labels: &Labels,
        opened: &OpenDocument<'_>,
    ) -> Result<Reply, Fault> {
        match labels.lookup(self.label.as_bytes()) {
            Some(target) => self.encoded(alloc, target, opened),
            None => Err(Fault::UnknownLabel),
        }
    }
}

impl Encode<'_> {
    /// The code points in this encoding, from its first state to its end.
    fn encoded(
        &self,
        alloc: Global,
        target: Encoding,
        opened: &OpenDocument<'_>,
    ) -> Result<Reply, Fault>
        ensures { Gives (encode_reply opened.now.document.indexes (entry_of opened.now) self.now.from self.now.to target self.now.mode) result }
    {
        let document = &opened.document;
        let indexes = document.indexes();
        if !indexes.has(target) {
            return Err(Fault::NoIndex);
        }
        let part = document.text(self.from, self.to)?;
        let answer = encode(alloc, target, indexes, self.mode, part.as_str());
        encoded_reply(opened.revision, answer)
    }
}

/// The reply with what an encoder answered.
fn encoded_reply(rev: u64, answer: Result<Vec<u8>, EncodeFault>) -> Result<Reply, Fault>
    ensures { (wanted : Result (List ℕ) EncodeFault) → IsEncoded wanted answer → Gives (bytes_reply rev wanted) result }
{
    match answer {
        Ok(bytes) => Ok(Reply::Bytes(BytesReply {
            rev,
            bytes: ReplyList::new(bytes),
        })),
        Err(EncodeFault::NoIndex) => Err(Fault::NoIndex),
        Err(EncodeFault::NoEncoder) => Err(Fault::NoEncoder),
        Err(EncodeFault::Unencodable(found)) => Err(Fault::Unencodable {
            code_point: u32::from(found.code_point),
            index: found.index,
        }),
        Err(EncodeFault::OutOfMemory) => Err(Fault::OutOfMemory),
    }
}
