//! The place in a trace that may have a head.
ghost use Rattle.std.specs.Prelude.{◌≡◌, false};
ghost use Rattle.gateway.specs.{Head.first_place, HeadedFeeding.IsFresh, HeadedFeeding.head_line_fault};

use crate::traces::fault::LineFault;
use crate::traces::feeding::TracePlace;
use crate::traces::head::HeadFault;
use crate::traces::head_reader::HeadReader;
use connections::Gateway;
use devices::{Outlet, Taker};
use std::alloc::Global;

/// The place in a trace: in its head, or after it, among the events.
#[derive(Drop)]
pub(super) struct HeadedPlace {
    pub(super) head: HeadReader,
    pub(super) over: bool,
    pub(super) place: TracePlace,
}

impl HeadedPlace {
    /// Creates the place at the first line.
    pub(super) fn start(alloc: Global) -> HeadedPlace
        ensures head { result.head ≡ first_place }
        ensures over { result.over ≡ false }
        ensures fresh { IsFresh result.place }
        ensures number { result.place.number ≡ 1 }
    {
        HeadedPlace {
            head: HeadReader::start(alloc),
            over: false,
            place: TracePlace::start(alloc),
        }
    }
}

// The head takes bytes as long as it takes any; the rest are taken as events.
impl<'i, W: Outlet> Taker<Gateway<'i>, W> for HeadedPlace {
    ghost use Rattle.std.specs.Prelude.{◌-◌, ◌+◌, ◌^◌, if◌then◌else◌};
    ghost use Rattle.gateway.specs.HeadedFeeding.{HeadedFed, HeadedFedUntil};

    type Fault = LineFault;

    ghost ready = { λ s. Unit {0} };

    ghost room = { λ s. if s.0.over then 2 ^ 64 - 1 - s.0.place.number else 2 ^ 64 - 2 - s.0.head.lines };

    ghost takes = { λ bytes s t. HeadedFed bytes s.1 t.1 (W.took s.2) (W.took t.2) s.0 t.0 };

    ghost stops = { λ f bytes s t. HeadedFedUntil f bytes s.1 t.1 (W.took s.2) (W.took t.2) s.0 t.0 };

    fn take(
        &mut self,
        gateway: &mut Gateway<'i>,
        writer: &mut W,
        bytes: &[u8],
    ) -> Result<usize, LineFault> {
        if self.over {
            return self.place.take(gateway, writer, bytes);
        }
        if bytes.is_empty() {
            return Ok(0);
        }
        let n = match self.head.take(gateway, bytes) {
            Ok(n) => n,
            Err(fault) => return Err(line_fault(fault)),
        };
        self.place.number = self.head.lines() + 1;
        if n > 0 {
            return Ok(n);
        }
        self.over = true;
        self.place.take(gateway, writer, bytes)
    }
}

/// The fault of a line of a head.
pub(super) fn line_fault(fault: HeadFault) -> LineFault
    ensures { result ≡ head_line_fault fault }
{
    match fault {
        HeadFault::Bad => LineFault::Bad,
        HeadFault::OutOfMemory => LineFault::OutOfMemory,
    }
}
