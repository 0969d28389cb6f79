//! Tests of what the decoders take in bulk, and worked examples of their definitions.
mod bulk;
mod examples;
