//! The line protocol: a line of JSON to a command, the command to its reply, the reply to its line.
//!
//! Keeps: It has no document: what it reports of one is in the desk's reply.
#![tactic(auto)]

mod laws;
mod ops;
mod reply_line;
mod request;
mod respond;

pub use laws::law_out_of_memory_changes_nothing;
pub use reply_line::{ReplyLine, ShortText};
pub use request::{Field, Refusal, Wanted, parse_request, read_json};
pub use respond::{LINE_LIMIT, reply_to, reply_to_dropped};
