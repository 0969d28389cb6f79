//! The greatest number in a command or a reply.

/// The greatest number of a line, and so the greatest revision, 2^53 - 1: up to it every JSON reader
/// holds whole numbers exactly (RFC 8259, section 6).
pub const MAX_NUMBER: u64 = 9_007_199_254_740_991;
