//! The one encoder: worked examples, and texts that are taken in parts. Why texts are refused are rows of
//! `compare_rows`, and tried on the program by tests/program/test_program.py.
mod bytewise;
mod examples;
mod parts;
