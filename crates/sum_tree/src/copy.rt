//! Copying a node.
ghost use Rattle.std.specs.Prelude.{◌≡◌, ◌+◌, ◌≤◌, IfOk, OnOk, vec_len, vec_capacity};

use crate::memory::OutOfMemory;
use crate::node::{Child, Node, NodeParts};
use crate::pool::Pool;
use crate::summary::{Summary, Summed, TryCopy};

impl<T: Summed<S> + TryCopy + Drop, S: Summary> Child<T, S> {
    /// A copy of the node and of all below it, in boxes of the pool.
    pub(crate) fn copy(&self, pool: &mut Pool<T, S>) -> Result<Child<T, S>, OutOfMemory>
        requires room { self.now.nodes ≤ vec_len pool.old }
        ensures items { IfOk result (λ c. c.items ≡ self.now.items) }
        ensures height { IfOk result (λ c. c.height ≡ self.now.height) }
        ensures nodes { IfOk result (λ c. c.nodes ≡ self.now.nodes) }
        ensures boxes { OnOk result (vec_len pool.new + self.now.nodes ≡ vec_len pool.old) }
        ensures capacity { vec_capacity pool.new ≡ vec_capacity pool.old }
    {
        match self.parts() {
            NodeParts::Leaf(x) => {
                let x = x.copy()?;
                Ok(Child::close(pool.take_last(), Node::Leaf(x)))
            }
            NodeParts::Two(a, b) => {
                let a = a.copy(pool)?;
                let b = b.copy(pool)?;
                Ok(Child::close(pool.take_last(), Node::Two(a, b)))
            }
            NodeParts::Three(a, b, c) => {
                let a = a.copy(pool)?;
                let b = b.copy(pool)?;
                let c = c.copy(pool)?;
                Ok(Child::close(pool.take_last(), Node::Three(a, b, c)))
            }
        }
    }
}
