//! Sessions: the clients that are connected to a gateway, each over a device that never blocks.
//!
//! Keeps: It has no socket. It knows a client as a device whose bytes contracts know.
#![tactic(auto)]

mod laws;
mod seat;
mod session;
mod sessions;
mod slots;

pub use laws::{
    law_acts_in_a_row, law_answers_reach_their_client, law_input_is_little,
    law_lines_are_taken_once, law_sessions_in_order,
};
pub use seat::Seat;
pub use sessions::{Advance, JoinFault, Sessions};
