//! The head of a trace: documents that are there before the first event.
ghost use Rattle.std.specs.Prelude.{◌≡◌, ◌==◌, ◌||◌, [], string_bytes};
ghost use Rattle.gateway.specs.Head.{Adoption, HeadLinesGoOn, HeadsGoOn, LinesAreAlike, ObeysOn, ObeysOrderBy, Part, heading, may_head};
ghost use Rattle.gateway.specs.Orders.{Fits, FitsOrder, order_of};
ghost use Rattle.gateway.specs.Headed.{HeadlessTraces};
ghost use Rattle.desk.specs.Desk.{Office};

use crate::traces::order::{TraceAdoption, TraceOrder, order_on_line};
use connections::{Gateway, law_lines};
use desk::Fault;
use std::alloc::Global;
use std::marker::Model;

/// The most bytes of a document.
const PARTS_LIMIT: usize = 16_777_216;

/// Why a head isn't read further.
#[derive(Clone, Copy, PartialEq, Eq, Debug)]
pub enum HeadFault {
    /// The line has no order, or one that can't be obeyed.
    Bad,
    /// An allocation was refused.
    OutOfMemory,
}

/// The bytes of the parts of a head since its last document. Contracts see their list.
#[derive(Drop)]
pub struct HeadParts {
    bytes: Vec<u8>,
    alloc: Global,
}

impl Model for HeadParts {
    ghost use Rattle.std.specs.{Prelude.List, Prelude.ℕ, Coded.coded_list, Coded.coded_ℕ};

    ghost Value = { List ℕ };

    ghost coded = { coded_list coded_ℕ };

    ghost view = { λ a. a.bytes.items };
}

impl HeadParts {
    /// The bytes of no part.
    pub fn new(alloc: Global) -> HeadParts
        ensures { result ≡ [] }
    {
        HeadParts {
            bytes: Vec::new(alloc),
            alloc,
        }
    }

    /// Obeys the order on a line of a head (`obeys`). A part's bytes are appended to those that came
    /// before, an adoption makes a document of these, and a comment does nothing. The lines of the
    /// connections are unchanged (`lines`).
    ///
    /// # Errors
    ///
    /// The line has no order, or one that can't be obeyed, or isn't a comment and is longer than
    /// 6,291,456 bytes; or memory ran out. The desk is unchanged.
    #[tactic(auto, using(crate::proofs::Heads::obeyed_by))]
    pub fn obey(&mut self, gateway: &mut Gateway<'_>, line: &[u8]) -> Result<(), HeadFault>
        ensures lines { gateway.new.lines ≡ gateway.old.lines }
        ensures obeys { ObeysOn result line.now (heading gateway.old.office self.old) (heading gateway.new.office self.new) }
    {
        let order = match order_on_line(self.alloc, line) {
            Ok(Some(order)) => order,
            Ok(None) => return Err(HeadFault::Bad),
            Err(_) => return Err(HeadFault::OutOfMemory),
        };
        obey_order(gateway, &order, &mut self.bytes)
    }
}

/// Whether a line that begins with these bytes may be one of a head.
pub fn may_head(line: &[u8]) -> bool
    ensures { result ≡ may_head line.now }
{
    match line.first() {
        Some(byte) => begins_head(*byte),
        None => false,
    }
}

/// Whether a comment, `adopt` or `part` begins with this byte.
fn begins_head(byte: u8) -> bool
    ensures { result ≡ ((byte == 35) || ((byte == 97) || (byte == 112))) }
{
    byte == b'#' || byte == b'a' || byte == b'p'
}

/// The laws of a head. Lines that are obeyed in two parts are obeyed (`lines`), and bytes that are
/// taken in two parts are taken (`on`). It doesn't matter which comment is begun (`alike`). A trace
/// whose first line doesn't belong to a head is played as `trace` plays it (`headless`). The call does
/// nothing.
pub fn law_heads()
    ensures lines { HeadLinesGoOn }
    ensures alike { LinesAreAlike }
    ensures on { HeadsGoOn }
    ensures headless { HeadlessTraces }
{
    law_lines();
}

/// Obeys an order.
fn obey_order(
    gateway: &mut Gateway<'_>,
    order: &TraceOrder,
    parts: &mut Vec<u8>,
) -> Result<(), HeadFault>
    requires { FitsOrder order.now }
    ensures lines { gateway.new.lines ≡ gateway.old.lines }
    ensures obeys { ObeysOrderBy result (order_of order.now) (heading gateway.old.office parts.old.items) (heading gateway.new.office parts.new.items) }
{
    match order {
        TraceOrder::Comment => Ok(()),
        TraceOrder::Part(bytes) => add_part(parts, bytes),
        TraceOrder::Adoption(adoption) => adopt(gateway, adoption, parts),
    }
}

/// Adds the bytes of a part.
fn add_part(parts: &mut Vec<u8>, bytes: &[u8]) -> Result<(), HeadFault>
    ensures { (office : Office) → ObeysOrderBy result (Part bytes.now) (heading office parts.old.items) (heading office parts.new.items) }
{
    if parts.len().saturating_add(bytes.len()) > PARTS_LIMIT {
        return Err(HeadFault::Bad);
    }
    match parts.extend_from_slice(bytes) {
        Ok(()) => Ok(()),
        Err(_) => Err(HeadFault::OutOfMemory),
    }
}

/// Adopts a document of the parts' bytes.
fn adopt(
    gateway: &mut Gateway<'_>,
    adoption: &TraceAdoption,
    parts: &mut Vec<u8>,
) -> Result<(), HeadFault>
    requires { Fits adoption.now }
    ensures lines { gateway.new.lines ≡ gateway.old.lines }
    ensures obeys { ObeysOrderBy result (Adoption (string_bytes adoption.now.name) adoption.now.setting adoption.now.revision)
        (heading gateway.old.office parts.old.items) (heading gateway.new.office parts.new.items) }
{
    match gateway.adopt(
        adoption.name.as_str(),
        adoption.setting,
        parts,
        adoption.revision,
    ) {
        Ok(()) => {
            parts.clear();
            Ok(())
        }
        Err(Fault::OutOfMemory) => Err(HeadFault::OutOfMemory),
        Err(_) => Err(HeadFault::Bad),
    }
}
