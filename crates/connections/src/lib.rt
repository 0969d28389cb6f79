//! Sixteen connections to one desk: bytes are received, lines are completed one at a time, and each
//! reply is sent before the next line is decided.
//!
//! Keeps: It parses nothing but line feeds and has no document. Of encodings it knows only the
//! setting that it passes to its desk. What a line is answered is up to `line_protocol`.
#![tactic(auto)]

mod connection;
mod gateway;
mod laws;
mod serve;

pub use connection::{BegunLine, CONNECTIONS, Line, line_end};
pub use gateway::{Event, GateFault, Gateway, KeepsEvents, Out, TakeFault, TakesEvents};
pub use laws::{law_events, law_events_go_on, law_lines, law_replies_in_order};
pub use serve::{RunFault, bring, run};
