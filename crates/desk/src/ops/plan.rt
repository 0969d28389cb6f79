//! The op `plan`.

use crate::question::{Fault, Global, Labels, OpenDocument, Question, Reply};
use crate::reply::ReplyList;
use decoder_core::meter;
use position_map::{Insertion, PlannedBytes, Range, Unit, plan_change};
use sum_tree::visits;

/// Returns what a change of a range of a document's text would do.
#[derive(Clone, Copy)]
pub struct Plan<'a> {
    /// The document's name.
    pub doc: &'a str,
    /// Unit in which the range's characters are counted.
    pub unit: Unit,
    /// The range to replace; the whole text if absent or `null`.
    pub range: Option<Range>,
    /// The new text.
    pub text: &'a str,
}

/// The reply to `plan`.
#[derive(Drop)]
pub struct PlanReply {
    /// Offset of the first byte that would be inserted.
    pub at: u64,
    /// The bytes that would be inserted.
    pub bytes: PlannedBytes,
    /// Whether the change would preserve the text; if not, it would be `NotKept`.
    pub kept: bool,
    /// The bytes that would be removed.
    pub old: ReplyList<u8>,
    /// The revision that this is a plan for.
    pub rev: u64,
}

impl Question for Plan<'_> {
    ghost use Rattle.desk.specs.Commands.{Plan};

    ghost asked = { λ q. Plan q.unit q.range q.text.now };

    fn ask(&self, alloc: Global, _: &Labels, opened: &OpenDocument<'_>) -> Result<Reply, Fault> {
        let (document, text) = (&opened.document, self.text);
        let new = Insertion::Text(text);
        let plan = plan_change(alloc, document, self.range, self.unit, new, &mut visits())?;
        let ins = plan.ins.as_slice();
        let kept = document.keeps(plan.at, plan.del, ins, plan.i, plan.j, text, &mut meter())?;
        let old = document.source(plan.at, plan.del)?;
        Ok(Reply::Plan(PlanReply {
            at: plan.at,
            bytes: plan.ins,
            kept,
            old: ReplyList::new(old),
            rev: opened.revision,
        }))
    }
}
