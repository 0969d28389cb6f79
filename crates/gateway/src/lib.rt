//! The gateway: lines of JSON come in over connections, commands act on named documents, reply
//! lines go out. Traces of many connections are played here; the rest is re-exported from the crates
//! below.
//!
//! Keeps: It parses only the lines of a trace, with the names of encodings in them, and has no
//! document. What a line is answered is up to `line_protocol`.
#![tactic(auto)]

mod laws;
mod traces;

pub use connections::{
    CONNECTIONS, Event, GateFault, Gateway, KeepsEvents, Out, RunFault, law_replies_in_order, run,
};
pub use devices::{
    Disk, Failed, Feed, FromRead, MemFeed, MemOutlet, Outlet, Stop, Synced, ToWrite, write_all,
};
pub use laws::law_traces_in_order;
pub use line_protocol::ReplyLine;
pub use traces::{HeadFault, HeadParts, TraceFault, law_heads, may_head, trace, trace_with_head};
