//! Laws of the desk's definition, which every desk meets.
ghost use Rattle.desk.specs.Accepted.{OnlyChangesChange, RefusalsChangeNothing, MemoryIsNeverWanted};
ghost use Rattle.desk.specs.KeptText.{ChangesKeepText, GivenBytesKeepText, ListsAreTheirChanges, ListsKeepText};
ghost use Rattle.desk.specs.Lives.{OpensBegin, AdoptionsBegin, ClosesEnd, Lives, SinceLeads};
ghost use Rattle.desk.specs.{Apart.DocumentsAreApart, AsPlanned.PlansForetellChanges, AsPlanned.RefusedPlansRefuseChanges};

/// States that a refused command changes nothing. The documents change only if the reply reports an
/// accepted open, edit or close (`changes`), and a refusal leaves them unchanged (`documents`). The
/// definition itself never refuses for lack of memory (`memory`).
pub fn law_refusals_change_nothing()
    ensures changes { OnlyChangesChange }
    ensures documents { RefusalsChangeNothing }
    ensures memory { MemoryIsNeverWanted }
{}

/// States that a document has each accepted edit once, in order. An accepted open begins it at
/// revision 0 (`opens`), an adoption at its stated revision (`adoptions`), and an accepted close
/// removes it (`closes`). In between each edit was made to the revision that it named, and the log
/// has what the last edits left (`lives`).
pub fn law_lives_have_each_edit_once()
    ensures opens { OpensBegin }
    ensures adoptions { AdoptionsBegin }
    ensures closes { ClosesEnd }
    ensures lives { Lives }
{}

/// States what the op `since` reports between a document's open or adoption and its close. It reports a
/// splice that leads from the document's bytes at an earlier revision to its bytes now, unless more
/// edits were accepted since then than a log holds.
pub fn law_since_leads()
    ensures { SinceLeads }
{}

/// States how accepted changes alter the text. An accepted change leaves the bytes of the splice
/// that is planned for its range. The text of these bytes, decoded from scratch, is the old text
/// with the code points of the range replaced (`changes`). So it is where given bytes were put in
/// (`given`), and with each change of an accepted list, applied to the result of the change before
/// it (`lists`). Unless memory runs out, a list that names the current revision, if that can be
/// raised, is accepted exactly if each of its changes is, in turn (`each`).
pub fn law_changes_keep_text()
    ensures changes { ChangesKeepText }
    ensures given { GivenBytesKeepText }
    ensures lists { ListsKeepText }
    ensures each { ListsAreTheirChanges }
{}

/// States that a plan foretells the change. If a change follows its plan on the same desk and names
/// the plan's revision, it is made exactly as planned. If the plan says that the text wouldn't be
/// kept, the change is refused with `NotKept` (`foretell`). If the plan was refused, the change is
/// refused with the same refusal (`refused`). Both hold unless memory runs out or the revision can't
/// be raised.
pub fn law_plans_foretell_changes()
    ensures foretell { PlansForetellChanges }
    ensures refused { RefusedPlansRefuseChanges }
{}

/// States that a desk's answers for one document don't depend on other documents. The one exception
/// is whether there is a place for one more document.
pub fn law_documents_are_apart()
    ensures { DocumentsAreApart }
{}
