//! Tests of the gateway over devices that fail or take few bytes, and the worked examples of its
//! definitions. What the program answers to lines and traces is tried on it as it was built, by the
//! sessions and tables of tests/program. They are in a crate of their own, so that the crates below are
//! proved once.
#![tactic(auto)]

#[cfg(test)]
mod breaking;
#[cfg(test)]
mod events;
#[cfg(test)]
mod plays;
#[cfg(test)]
mod reply_lines;
#[cfg(test)]
mod requests;
#[cfg(test)]
mod runs;
#[cfg(test)]
mod stopping;
#[cfg(test)]
mod stops;
#[cfg(test)]
mod traces;
