//! Index files of the Encoding Standard and the exceptions of the gb18030 encoder: how their files
//! are named and parsed, and look-ups in them.
//!
//! Keeps: It knows the contents of index files, and opens none.
#![tactic(auto)]

mod by_code_point;
mod by_pointer;
mod exception_line;
mod exceptions;
mod family;
mod fault;
mod field;
mod first_pointers;
mod form;
mod formed_index;
mod index;
mod indexes;
mod kind;
mod laws;
mod line;
mod of_bytes;
mod plain;
mod reading;
mod rows;
mod table;
mod tens;

pub use exceptions::{EXCEPTIONS_FILE, Exceptions};
pub use family::Family;
pub use fault::{ExceptionCause, ExceptionFault, IndexCause, IndexFault};
pub use form::Utf8Form;
pub use formed_index::FormedIndex;
pub use index::Index;
pub use indexes::Indexes;
pub use kind::{INDEX_FILES, IndexKind, PairEncoding};
pub use laws::law_pointer_exclusion;
pub use of_bytes::ByteForms;
