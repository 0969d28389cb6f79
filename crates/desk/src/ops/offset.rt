//! The op `offset`.

use crate::question::{Fault, Global, Labels, OpenDocument, Question, Reply};
use position_map::{Position, Unit, to_offset};
use sum_tree::visits;

/// Returns the offset of a position (LSP 3.17, "Position").
#[derive(Clone, Copy)]
pub struct Offset<'a> {
    /// The document's name.
    pub doc: &'a str,
    /// Number of the line, counted from 0.
    pub line: u64,
    /// Number of units between the line's start and the position.
    pub character: u64,
    /// Unit in which `character` is counted.
    pub unit: Unit,
}

/// The reply to `offset`.
#[derive(Clone, Copy)]
pub struct OffsetReply {
    /// The document's revision.
    pub rev: u64,
    /// The offset, in code points.
    pub offset: u64,
}

impl Question for Offset<'_> {
    ghost use Rattle.desk.specs.Commands.{Offset};

    ghost asked = { λ q. Offset q.line q.character q.unit };

    fn ask(&self, _: Global, _: &Labels, opened: &OpenDocument<'_>) -> Result<Reply, Fault> {
        let position = Position {
            line: self.line,
            character: self.character,
        };
        let offset = to_offset(&opened.document, position, self.unit, &mut visits())?;
        Ok(Reply::Offset(OffsetReply {
            rev: opened.revision,
            offset,
        }))
    }
}
