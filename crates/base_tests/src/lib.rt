//! Tests of the lowest layers over their public items. These are the names of encodings, index
//! files, the kernels of lanes, the tree of sums, and the plain answers that they are compared with.
//! They are in a crate of their own since a crate with tests is proved twice.
#![tactic(auto)]

#[cfg(test)]
mod of_enc_names;
#[cfg(test)]
mod of_index_loader;
#[cfg(test)]
mod of_lane_ascii;
#[cfg(test)]
mod of_lane_utf;
#[cfg(test)]
mod of_oracle;
#[cfg(test)]
mod of_sum_tree;
