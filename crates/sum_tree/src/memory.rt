//! The one refusal of calls that allocate.

/// The error of a failed allocation.
pub type OutOfMemory = std::alloc::AllocError;
