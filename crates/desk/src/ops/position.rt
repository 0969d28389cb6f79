//! The op `position`.

use crate::question::{Fault, Global, Labels, OpenDocument, Question, Reply};
use position_map::{Unit, to_position};
use sum_tree::visits;

/// Returns the position of an offset (LSP 3.17, "Position").
#[derive(Clone, Copy)]
pub struct Position<'a> {
    /// The document's name.
    pub doc: &'a str,
    /// The offset, in code points.
    pub offset: u64,
    /// Unit in which the position's character is counted.
    pub unit: Unit,
}

/// The reply to `position`.
#[derive(Clone, Copy)]
pub struct PositionReply {
    /// The document's revision.
    pub rev: u64,
    /// Number of the line, counted from 0.
    pub line: u64,
    /// Number of units between the line's start and the position.
    pub character: u64,
}

impl Question for Position<'_> {
    ghost use Rattle.desk.specs.Commands.{Position};

    ghost asked = { λ q. Position q.offset q.unit };

    fn ask(&self, _: Global, _: &Labels, opened: &OpenDocument<'_>) -> Result<Reply, Fault> {
        let position = to_position(&opened.document, self.offset, self.unit, &mut visits())?;
        Ok(Reply::Position(PositionReply {
            rev: opened.revision,
            line: position.line,
            character: position.character,
        }))
    }
}
