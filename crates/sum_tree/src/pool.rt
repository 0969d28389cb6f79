//! Boxes of nodes that are made ahead of their use.
ghost use Rattle.std.specs.Prelude.{◌≡◌, ◌+◌, ◌*◌, ◌≤◌, OnOk, vec_len, vec_capacity};

use crate::node::Node;
use crate::summary::{Summary, Summed};
use std::alloc::{AllocError, Global};

/// Vacant boxes. Its capacity is that of all boxes of the tree, so a box can always be put back.
pub(crate) type Pool<T, S> = Vec<Box<Node<T, S>>>;

/// Adds two boxes for each of `places` places.
pub(crate) fn add_places<T: Summed<S> + Drop, S: Summary>(
    alloc: Global,
    pool: &mut Pool<T, S>,
    places: usize,
) -> Result<(), AllocError>
    requires { vec_len pool.old + 2 * places ≤ vec_capacity pool.old }
    ensures ok { OnOk result (vec_len pool.new ≡ vec_len pool.old + 2 * places) }
    ensures least { vec_len pool.old ≤ vec_len pool.new }
    ensures most { vec_len pool.new ≤ vec_len pool.old + 2 * places }
    ensures capacity { vec_capacity pool.new ≡ vec_capacity pool.old }
{
    for place in 0..places {
        let _ = place;
        pool.push_reserved(Box::new(alloc, Node::Vacant)?);
        pool.push_reserved(Box::new(alloc, Node::Vacant)?);
    }
    Ok(())
}
