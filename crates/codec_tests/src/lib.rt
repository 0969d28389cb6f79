//! Tests of the layers from the decoders' core up to the one decoder and the one encoder, over their
//! public items. They are in a crate of their own since a crate with tests is proved twice.
#![tactic(auto)]

#[cfg(test)]
mod in_turn;
#[cfg(test)]
mod indexes;
#[cfg(test)]
mod of_codec;
#[cfg(test)]
mod of_decoder_core;
#[cfg(test)]
mod of_encoders;
#[cfg(test)]
mod of_exceptions;
#[cfg(test)]
mod of_iso2022jp;
#[cfg(test)]
mod of_multibyte_decoders;
#[cfg(test)]
mod of_texts;
