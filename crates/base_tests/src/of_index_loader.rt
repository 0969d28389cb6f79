//! Index files and files of exceptions of a few lines, their faults and look-ups in them, computed by
//! the definitions. What the program answers over such files is tried on it as it was built, by
//! tests/program/test_program.py and tests/hostile.
ghost use Rattle.base_tests.specs.ExceptionFiles.{ExceptionFaults, ParsedExceptions};
ghost use Rattle.base_tests.specs.IndexFiles.{FileFaults, FilesHeld, LookUps, ParsedFiles};

/// The worked examples hold, by computing.
fn examples()
    ensures faults { FileFaults }
    ensures parsed_files { ParsedFiles }
    ensures look_ups { LookUps }
    ensures exception_faults { ExceptionFaults }
    ensures parsed_exceptions { ParsedExceptions }
{}

/// The files that are held, and the encodings that have all of theirs.
#[tactic(auto, unfolding(index_loader::specs::Files::has_files, index_loader::specs::Kinds::slot_of))]
fn files_held()
    ensures { FilesHeld }
{}

#[test]
fn worked_examples_are_what_the_definitions_say() {
    examples();
    files_held();
}
