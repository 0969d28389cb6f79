//! The request in a line: its JSON value, and the command in the value's fields.

mod change_list;
mod commands;
mod field;
pub(crate) mod fields;
mod flat;
mod parsed;
mod read;
mod refusal;
mod wanted;

pub(crate) use change_list::change_list;
pub use commands::parse_request;
pub use field::Field;
pub(crate) use field::{command, need};
pub(crate) use fields::MAX_ENTRIES;
pub(crate) use flat::{FlatObject, flat_object};
pub(crate) use parsed::Parsed;
pub use read::read_json;
pub use refusal::Refusal;
pub use wanted::Wanted;
