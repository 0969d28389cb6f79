//! Names of encodings and their labels, how a document's bytes are to be read, Unicode scalar
//! values, and places in a document's bytes.
//!
//! Keeps: It knows names, labels, settings and JSON texts, and no index file.
#![tactic(auto)]

mod bom;
mod encoding;
mod json;
mod labels;
mod place;
mod scalar;
mod setting;

pub use bom::Bom;
pub use encoding::Encoding;
pub use json::parse_json;
pub use labels::{LabelFault, Labels};
pub use place::Place;
pub use scalar::Scalar;
pub use setting::Setting;
