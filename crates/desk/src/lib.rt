//! The desk: names of documents, their revisions, and one reply to each command.
//!
//! Keeps: It makes the meter and the count of visits of each command, so it depends on
//! `decoder_core` and `sum_tree`. It depends on neither `state_memo` nor `codec`: what pieces
//! remember, and how a document is decoded, is up to `Doc`.
#![tactic(auto)]

mod base64_text;
mod causes;
mod change_cause;
mod desk;
mod documents;
mod edit;
mod fault;
mod held;
mod laws;
mod line;
mod log;
mod max_number;
mod open_document;
pub mod ops;
mod overview;
mod page_start;
mod place_unit;
mod question;
mod reply;
mod text_mode;
mod turn;
mod untouched;

pub use change_cause::ChangeCause;
pub use desk::Desk;
pub use fault::Fault;
pub use held::Held;
pub use laws::{
    law_changes_keep_text, law_documents_are_apart, law_lives_have_each_edit_once,
    law_plans_foretell_changes, law_refusals_change_nothing, law_since_leads,
};
pub use line::Line;
pub use max_number::MAX_NUMBER;
pub use ops::{Command, Reply};
pub use overview::{Overview, OverviewReply};
pub use page_start::PageStart;
pub use place_unit::PlaceUnit;
pub use reply::{BytesReply, EditedReply, ReplyList, ReplyText};
pub use text_mode::TextMode;
pub use untouched::Patch;
