//! Refusals whose cause a layer below reports.
ghost use Rattle.std.specs.Prelude.{◌≡◌};
ghost use Rattle.desk.specs.{Documents.fault_of, Documents.position_fault, Change.cause_fault, Change.change_fault, Changes.in_change};
ghost use Rattle.desk.specs.declared.fault.Fault.TheVariants.{OutOfMemory};

use crate::change_cause::ChangeCause;
use crate::fault::Fault;
use piece_rope::DocFault;
use position_map::{ChangeFault, PosFault};
use std::alloc::AllocError;

impl From<DocFault> for Fault {
    ghost from_gives = { λ cause fault. fault ≡ fault_of cause };

    fn from(cause: DocFault) -> Fault {
        match cause {
            DocFault::NoIndex => Fault::NoIndex,
            DocFault::OutOfRange => Fault::OutOfRange,
            DocFault::TooLarge => Fault::TooLarge,
            DocFault::NotKept => Fault::NotKept,
            DocFault::OutOfMemory => Fault::OutOfMemory,
        }
    }
}

impl From<PosFault> for Fault {
    ghost from_gives = { λ cause fault. fault ≡ position_fault cause };

    fn from(cause: PosFault) -> Fault {
        match cause {
            PosFault::OutOfRange => Fault::OutOfRange,
            PosFault::SplitsCharacter => Fault::SplitsCharacter,
        }
    }
}

impl From<ChangeFault> for Fault {
    ghost from_gives = { λ cause fault. fault ≡ change_fault cause };

    fn from(cause: ChangeFault) -> Fault {
        match cause {
            ChangeFault::OutOfRange => Fault::OutOfRange,
            ChangeFault::SplitsCharacter => Fault::SplitsCharacter,
            ChangeFault::SplitsItem => Fault::SplitsItem,
            ChangeFault::NoEncoder => Fault::NoEncoder,
            ChangeFault::Unencodable(found) => Fault::Unencodable {
                code_point: u32::from(found.code_point),
                index: found.index,
            },
            ChangeFault::OutOfMemory => Fault::OutOfMemory,
        }
    }
}

impl From<ChangeCause> for Fault {
    ghost from_gives = { λ cause fault. fault ≡ cause_fault cause };

    fn from(cause: ChangeCause) -> Fault {
        match cause {
            ChangeCause::Plan(fault) => Fault::from(fault),
            ChangeCause::Splice(fault) => Fault::from(fault),
        }
    }
}

impl Fault {
    /// The refusal of a list of changes whose change of this number is refused.
    pub(crate) fn in_change(change: u64, cause: ChangeCause) -> Fault
        ensures { result ≡ in_change change cause }
    {
        match cause {
            ChangeCause::Plan(ChangeFault::OutOfMemory)
            | ChangeCause::Splice(DocFault::OutOfMemory) => Fault::OutOfMemory,
            _ => Fault::InChange { change, cause },
        }
    }
}

impl From<AllocError> for Fault {
    ghost from_gives = { λ _ fault. fault ≡ OutOfMemory };

    fn from(_: AllocError) -> Fault {
        Fault::OutOfMemory
    }
}
