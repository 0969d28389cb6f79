//! Lines that are one flat object, read without memory.

mod find;
mod lexemes;
mod object;
mod plain;
mod ranges;
mod read;

pub(crate) use object::{FlatObject, FlatValue};
pub(crate) use read::flat_object;
