//! Tests of the layers from the pieces of a document up to the desk, over their public items. They
//! are in a crate of their own since a crate with tests is proved twice.
#![tactic(auto)]

#[cfg(test)]
mod indexes;
#[cfg(test)]
mod of_desk;
#[cfg(test)]
mod of_piece_rope;
#[cfg(test)]
mod of_position_map;
#[cfg(test)]
mod of_state_memo;
