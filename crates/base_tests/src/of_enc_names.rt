//! Names and label files. What the program answers over label files is tried on it as it was built,
//! by tests/program/test_program.py and tests/hostile.
mod examples;
