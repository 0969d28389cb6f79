//! Lemmas on tests, numbers, lists and texts, in the words of the library alone, for the proofs of
//! all crates; there is no code.
//!
//! Keeps: It has neither code nor definitions, and its lemmas use the library's terms alone, so
//! that proofs of all crates may cite them.
#![tactic(auto)]
