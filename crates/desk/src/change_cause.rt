//! The reasons why a change of a document's text is refused.
ghost use Rattle.std.specs.Prelude.{◌≡◌};
ghost use Rattle.desk.specs.declared.change_cause.ChangeCause.TheVariants.{Plan, Splice};

use piece_rope::DocFault;
use position_map::ChangeFault;

/// The reason why a change is refused, in the order in which it is made. As a `Fault` it is the fault
/// with which the op `change` would be refused.
#[derive(Clone, Copy, PartialEq, Eq, Debug)]
pub enum ChangeCause {
    /// The change can't be planned as a splice.
    Plan(ChangeFault),
    /// The planned splice can't be made.
    Splice(DocFault),
}

impl From<ChangeFault> for ChangeCause {
    ghost from_gives = { λ fault cause. cause ≡ Plan fault };

    fn from(fault: ChangeFault) -> ChangeCause {
        ChangeCause::Plan(fault)
    }
}

impl From<DocFault> for ChangeCause {
    ghost from_gives = { λ fault cause. cause ≡ Splice fault };

    fn from(fault: DocFault) -> ChangeCause {
        ChangeCause::Splice(fault)
    }
}
