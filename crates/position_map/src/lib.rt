//! Lines, positions and places of a document's text, in three units.
//!
//! Keeps: It makes no count of visits and names no tree. Each search of its own is counted on the
//! `Visits` that it borrows, and clauses such as `to_offset.most` bound them. It names neither a
//! meter nor the trait `Decoder`, so a plan decodes nothing.
//!
//! Keeps (`Parts`): It has no copies, so `three_from`, which takes it, is called at most once for
//! each borrowed document.
#![tactic(auto)]

mod change_fault;
mod cuts;
mod diagnostic;
mod diagnostic_examples;
mod examples;
mod fault;
mod insertion;
mod lines;
mod marks;
mod parts;
mod places;
mod plan;
mod plan_examples;
mod position;
mod positions;
mod reach;
mod unit;

pub use change_fault::ChangeFault;
pub use diagnostic::{Diagnostic, first_error_from, list_diagnostics};
pub use fault::PosFault;
pub use insertion::Insertion;
pub use lines::{LineCursor, line, line_count};
pub use places::{byte_to_scalar, scalar_to_place};
pub use plan::{Plan, PlannedBytes, plan_change};
pub use position::{Position, Range};
pub use positions::{convert, to_offset, to_position};
pub use unit::Unit;
