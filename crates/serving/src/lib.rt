//! Serving of live clients: sockets that never block, and a loop in which the connected clients
//! take their steps.
//!
//! Keeps: It has sockets and a loop, and no line, command or document. What is taken from a client
//! and sent to it is up to `sessions`.
#![tactic(auto)]

mod access;
mod check;
mod departures;
mod duplex;
mod first_line;
mod guarded;
mod listener;
mod lock;
mod peer;
mod peers;
mod polls;
mod serve;
mod server;
mod socket_file;
mod spin;

pub use access::{Access, LINE};
pub use listener::Place;
pub use serve::{ServingFault, serve_clients};
pub use server::{Limits, Refusal};
