//! `documents`: what is open.
ghost use Rattle.serde_json.specs.Events.{SendsValue};
ghost use Rattle.line_protocol.specs.{Inline.IsLongLine, Ops.Documents.documents_data, Values.document_data};

use crate::reply_line::{Item, send_list, serialized_line};
use desk::{Held, ops};
use serde::{Described, Serialize, Serializer};
use std::alloc::{AllocError, Global};

/// The line with the open documents.
pub(crate) fn line(
    alloc: Global,
    id: u64,
    reply: &ops::DocumentsReply<'_, '_>,
) -> Result<Vec<u8>, AllocError>
    ensures { IsLongLine (documents_data id reply.now) result }
{
    serialized_line(alloc, &Listing { id, reply })
}

/// The object with the open documents.
#[derive(Clone, Copy)]
struct Listing<'r, 'd, 'i: 'd> {
    id: u64,
    reply: &'r ops::DocumentsReply<'d, 'i>,
}

impl<'d, 'i: 'd> Described for Listing<'_, 'd, 'i> {
    ghost writes = { λ s. SendsValue (documents_data s.id s.reply.now) };
}

impl<'d, 'i: 'd> Serialize for Listing<'_, 'd, 'i> {
    fn serialize<S: Serializer>(&self, out: &mut S) -> Result<(), S::Error> {
        out.begin_map(Some(3))?;
        out.key("documents")?;
        send_list(out, self.reply.documents.as_slice())?;
        out.key("id")?;
        out.u64(self.id)?;
        out.key("turn")?;
        out.u64(self.reply.turn)?;
        out.end_map()
    }
}

impl Item for Held<'_, '_> {
    ghost json = { document_data };

    fn send<S: Serializer>(&self, out: &mut S) -> Result<(), S::Error> {
        out.begin_map(Some(4))?;
        out.key("bytes")?;
        out.u64(u64::from(self.len()))?;
        out.key("doc")?;
        out.str(self.name())?;
        out.key("given")?;
        out.str(self.setting().given.name())?;
        out.key("rev")?;
        out.u64(self.revision())?;
        out.end_map()
    }
}
