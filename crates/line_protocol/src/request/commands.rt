//! The reading of a request from a JSON value.
ghost use Rattle.serde_json.specs.View.{view};
ghost use Rattle.line_protocol.specs.Request.{IsRequest};

use crate::ops::request_in;
use crate::request::parsed::Parsed;
use crate::request::refusal::Refusal;
use crate::request::wanted::Wanted;
use serde_json::Value;
use std::alloc::Global;

/// The number of a request and what it asks, which borrows the request's texts.
///
/// # Errors
///
/// `BadRequest` with the first faulty field in the order of the command's fields, `UnknownOp`,
/// `OutOfMemory` for a list.
pub fn parse_request(alloc: Global, value: &Value) -> Result<(u64, Wanted<'_>), Refusal>
    ensures { IsRequest (view value.now) result }
{
    request_in(alloc, Parsed::Tree(value))
}
