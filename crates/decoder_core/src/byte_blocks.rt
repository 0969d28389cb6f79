//! Bytes that grow at their end, block by block.
ghost use Rattle.std.specs.Prelude.{◌≡◌, ◌≤◌, ◌++◌, [], length, IfOk, OnOk};
ghost use Rattle.decoder_core.specs.Steps.{bytes_of};

use crate::few::Few;
use std::alloc::{AllocError, Global};
use std::marker::Model;

/// The number of bytes in a block.
const BLOCK: usize = 1024;

/// The most bytes that one turn puts.
const TURN: usize = 4;

/// Bytes that grow at their end. They are gathered in a block, so that the vector grows by whole
/// blocks. Contracts see the bytes, and how many more the block takes.
#[derive(Drop)]
pub(crate) struct ByteBlocks {
    whole: Vec<u8>,
    block: [u8; 1024],
    filled: usize,
}

impl Model for ByteBlocks {
    ghost use Rattle.std.specs.Prelude.{◌++◌, ◌-◌, ◌≤◌, take};
    ghost use Rattle.decoder_core.specs.EncoderOutput.{Written};

    ghost Value = { Written };

    ghost view = { λ s. record { bytes = s.whole.items ++ take s.filled s.block; room = 1024 - s.filled } };

    ghost invariant = { λ s. s.filled ≤ 1024 };
}

impl ByteBlocks {
    /// No bytes, in a vector with room for `capacity`.
    pub(crate) fn with_capacity(alloc: Global, capacity: usize) -> Result<ByteBlocks, AllocError>
        ensures { IfOk result (λ blocks. blocks.bytes ≡ []) }
    {
        Ok(ByteBlocks {
            whole: Vec::with_capacity(alloc, capacity)?,
            block: [0; 1024],
            filled: 0,
        })
    }

    /// Empties the block into the vector.
    // Once in a thousand bytes: what is left in the loop over the code points is small.
    #[inline(never)]
    fn flush(&mut self) -> Result<(), AllocError>
        ensures bytes { self.new.bytes ≡ self.old.bytes }
        ensures room { OnOk result (self.new.room ≡ 1024) }
    {
        self.whole.extend_from_slice(&self.block[..self.filled])?;
        self.filled = 0;
        Ok(())
    }

    /// Puts what a turn gives.
    // In the loop over the code points.
    #[inline(always)]
    pub(crate) fn put(&mut self, bytes: Few) -> Result<(), AllocError>
        ensures { OnOk result (self.new.bytes ≡ self.old.bytes ++ bytes_of bytes) }
    {
        match bytes {
            Few::Zero => Ok(()),
            Few::One(a) => self.put_bytes([a]),
            Few::Two(a, b) => self.put_bytes([a, b]),
            Few::Three(a, b, c) => self.put_bytes([a, b, c]),
            Few::Four(a, b, c, d) => self.put_bytes([a, b, c, d]),
        }
    }

    /// Puts some bytes. Their number is a constant, so that they are one store.
    // In the loop over the code points.
    #[inline(always)]
    fn put_bytes<const N: usize>(&mut self, bytes: [u8; N]) -> Result<(), AllocError>
        requires { N ≤ 4 }
        ensures { OnOk result (self.new.bytes ≡ self.old.bytes ++ bytes.entry) }
    {
        if self.filled > BLOCK - TURN {
            self.flush()?;
        }
        self.fill(&bytes);
        Ok(())
    }

    /// Puts bytes into the block, which has room for them.
    // In the loop over the code points.
    #[inline(always)]
    fn fill(&mut self, bytes: &[u8])
        requires { length bytes.now ≤ self.old.room }
        ensures { self.new.bytes ≡ self.old.bytes ++ bytes.now }
    {
        let end = self.filled + bytes.len();
        self.block[self.filled..end].copy_from_slice(bytes);
        self.filled = end;
    }

    /// Puts a slice: into the block if it is short, otherwise after it.
    pub(crate) fn put_slice(&mut self, bytes: &[u8]) -> Result<(), AllocError>
        ensures { OnOk result (self.new.bytes ≡ self.old.bytes ++ bytes.now) }
    {
        if bytes.len() <= BLOCK - self.filled {
            self.fill(bytes);
            return Ok(());
        }
        self.flush()?;
        self.whole.extend_from_slice(bytes)
    }

    /// All the bytes.
    pub(crate) fn finish(self) -> Result<Vec<u8>, AllocError>
        ensures { IfOk result (λ bytes. bytes.items ≡ self.bytes) }
    {
        let mut all = self;
        all.flush()?;
        let ByteBlocks { whole, .. } = all;
        Ok(whole)
    }
}
