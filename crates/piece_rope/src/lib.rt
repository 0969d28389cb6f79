//! A document is its bytes: whatever is asked of it is answered as decoding its bytes from scratch
//! answers it. It is kept in pieces that remember what they decode to, so that an edit costs what
//! it changes.
//!
//! Keeps: It decodes bytes by `Piece::compute` alone, on its caller's meter. So
//! `Doc::open.meter_most` and `Doc::splice.meter_most` bound all the bytes that it has decoded. To
//! the crates above it re-exports `Finder` and `Visits`, but neither `visits` nor the tree, and no
//! meter.
//!
//! Keeps (`Doc`): `text`, `source`, `errors`, `fatal` and `copy` walk through the document without
//! counting on the caller's `Visits`. `encoding` and `bom_len` read its first piece. The others
//! that take `&self` read what is stored for the whole, or decode on the caller's meter.
//!
//! Keeps (`Entered`): A piece gives no access to its bytes.
//!
//! Keeps (`*`): No type except `Doc` reaches a document.
#![tactic(auto)]

mod ahead;
mod bytes;
mod change;
mod compare;
mod doc;
mod edit;
mod edited;
mod entered;
mod error_cursor;
mod error_places;
mod errors;
mod examples;
mod fault;
mod fresh;
mod install;
mod kept_examples;
mod later;
mod laws;
mod lengths;
mod limits;
mod log;
mod pieces;
mod rest;
mod scalars;
mod span;
mod splice;
mod text;
mod undo;
mod wanted;
mod window;

pub use doc::Doc;
pub use entered::Entered;
pub use errors::ErrorCount;
pub use fault::DocFault;
pub use laws::law_chained;
pub use lengths::Lengths;
pub use limits::{DOCUMENT_LIMIT, LONGEST_PIECE, SHORTEST_PIECE};
// What `position_map` uses of the crates below. Neither `visits` nor the tree is among it, so each
// search there is counted on the `Visits` that it borrows.
pub use state_memo::{
    Axis, Ended, Outcome, Sum, Text, begins_lf, count_marks, ends_cr, law_items, law_marks,
    law_sums, split_at_scalar,
};
pub use sum_tree::{Finder, Visits};
