//! The command line.

/// The program's usage.
pub const USAGE: &str =
    "usage: speed [lanes | codecs [--indexes DIR] | tree], DIR having the index files";

/// The job of the program.
#[derive(Clone, Copy)]
pub enum Measurement<'a> {
    /// List all that it measures.
    List,
    /// Measure the lane kernels.
    Lanes,
    /// Measure the codecs with the index files of this folder. Without a folder their samples are
    /// listed.
    Codecs(Option<&'a str>),
    /// Measure the tree of sums.
    Tree,
}

/// The job that a word alone asks for.
fn job_named<'a>(word: &str) -> Option<Measurement<'a>> {
    match word {
        "lanes" => Some(Measurement::Lanes),
        "codecs" => Some(Measurement::Codecs(None)),
        "tree" => Some(Measurement::Tree),
        _ => None,
    }
}

/// The job of the arguments, without the program's name. `None` if they name no job.
pub fn job_of(words: &[String]) -> Option<Measurement<'_>> {
    match words {
        [] => Some(Measurement::List),
        [word] => job_named(word.as_str()),
        [word, option, folder] => match (word.as_str(), option.as_str()) {
            ("codecs", "--indexes") => Some(Measurement::Codecs(Some(folder.as_str()))),
            _ => None,
        },
        _ => None,
    }
}
