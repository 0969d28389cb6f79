//! `hello`: what the program can do.
ghost use Rattle.serde_json.specs.Events.{SendsValue};
ghost use Rattle.line_protocol.specs.{Inline.IsLongLine, Ops.Hello.hello_data, Values.encoding_data};

use crate::reply_line::{Item, send_list, serialized_line};
use crate::respond::LINE_LIMIT;
use desk::ops;
use enc_names::Encoding;
use serde::{Described, Serialize, Serializer};
use std::alloc::{AllocError, Global};

/// The version of the program.
const PROGRAM: &str = "0.5.0";

/// The version of this protocol.
const PROTOCOL: u64 = 1;

/// The line with what the program can do.
pub(crate) fn line(alloc: Global, id: u64, reply: &ops::HelloReply) -> Result<Vec<u8>, AllocError>
    ensures { IsLongLine (hello_data id reply.now) result }
{
    serialized_line(alloc, &Hello { id, reply })
}

/// The object with what the program can do.
#[derive(Clone, Copy)]
struct Hello<'r> {
    id: u64,
    reply: &'r ops::HelloReply,
}

impl Described for Hello<'_> {
    ghost writes = { λ s. SendsValue (hello_data s.id s.reply.now) };
}

impl Serialize for Hello<'_> {
    fn serialize<S: Serializer>(&self, out: &mut S) -> Result<(), S::Error> {
        out.begin_map(Some(8))?;
        out.key("bytes")?;
        out.u64(self.reply.bytes as u64)?;
        out.key("documents")?;
        out.u64(self.reply.documents as u64)?;
        out.key("edits")?;
        out.u64(self.reply.edits as u64)?;
        out.key("encodings")?;
        send_list(out, self.reply.encodings.as_slice())?;
        out.key("id")?;
        out.u64(self.id)?;
        out.key("line")?;
        out.u64(LINE_LIMIT as u64)?;
        out.key("program")?;
        out.str(PROGRAM)?;
        out.key("protocol")?;
        out.u64(PROTOCOL)?;
        out.end_map()
    }
}

impl Item for Encoding {
    ghost json = { encoding_data };

    fn send<S: Serializer>(&self, out: &mut S) -> Result<(), S::Error> {
        out.str(self.name())
    }
}
