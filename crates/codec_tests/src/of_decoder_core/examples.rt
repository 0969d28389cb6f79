//! Worked examples, as equations over the tables that computing them proves.
mod one_byte;
mod utf16;
mod utf8;
