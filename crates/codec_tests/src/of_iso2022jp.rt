//! ISO-2022-JP: what its decoder takes in bulk, and worked examples of both ways.
mod decoder;
mod decoder_examples;
mod encoder_examples;
