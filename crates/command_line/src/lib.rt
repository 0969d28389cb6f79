//! The program's arguments: the job that they name, or why their form is wrong.
//!
//! Keeps: It knows the arguments, and opens no file.
#![tactic(auto)]

mod form;
mod job;
mod streams;

pub use form::job_of;
pub use job::{
    Access, Allowances, Job, Limits, Listening, Mode, Place, Recording, Sources, Stream, Target,
};
