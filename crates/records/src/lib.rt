//! Records: what happens on the connections of a gateway, written as lines of a trace before each
//! reply is handed out, so that it can be played again.
//!
//! Keeps: It has no file: lines go to a device whose bytes contracts know. It parses no line, and
//! of documents it has what it borrows from the desk. What a line means is up to `gateway`.
#![tactic(auto)]

mod documents;
mod header;
mod heads;
mod laws;
mod line;
mod loss;
mod names;
mod player;
mod read_through;
mod record;
mod recorded;

pub use documents::{CompactFault, compact, law_compact};
pub use header::{Beginning, Origin, append_header, beginning_of};
pub use heads::law_headed_records;
pub use laws::{law_playing, law_records};
pub use names::law_names;
pub use player::{PlayFault, Player};
pub use read_through::play;
pub use record::{EventFault, Record};
pub use recorded::Recorded;
