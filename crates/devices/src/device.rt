//! The traits of devices that a program reads from and writes to.
//!
//! Contracts see the bytes that a device's reads returned or its writes took. They also see,
//! without a limit, how many calls there were and how many failed. These values exist for contracts
//! alone and take no memory. Contracts see what is still to be read if that is known, for example
//! of memory.
ghost use Rattle.std.specs.Prelude.{◌≡◌, ◌+◌, ◌<◌, ◌≤◌, ◌++◌, length, IfOk, OnOk, OnErr};
ghost use Rattle.std.specs.Io.KnownBytes.{ReadConsumes, WriteAppends, Appends};
ghost use Rattle.devices.specs.Devices.{Reads, Writes, failures_after, ends_after, read_bytes, AppendsPart};

/// A device failed, and did nothing else.
#[derive(Clone, Copy, PartialEq, Eq, Debug)]
pub struct Failed;

/// A device that bytes are read from.
pub trait Feed {
    /// The bytes that its reads returned, and how many reads there were.
    ghost seen: { Self → Reads };

    /// Reads bytes into the front of `buf`, and returns how many: none if `buf` is empty, or at the
    /// end. It returns at most the length of `buf` (`bound`). What was received grows by these bytes
    /// (`received`), and they are the next that were left (`bytes`). The call is counted (`reads`),
    /// and so is a read that finds the end (`ends`) or fails (`failures`).
    fn read(&mut self, buf: &mut [u8]) -> Result<usize, Failed>
        ensures bound { IfOk result (λ n. n ≤ length buf.new) }
        ensures received { (seen self.new).received ≡ (seen self.old).received ++ read_bytes result buf.new }
        ensures bytes { ReadConsumes (seen self.old).left (seen self.new).left result buf.new }
        ensures reads { (seen self.new).reads ≡ (seen self.old).reads + 1 }
        ensures ends { (seen self.new).ends ≡ ends_after result buf.new (seen self.old).ends }
        ensures failures { (seen self.new).failures ≡ failures_after result (seen self.old).failures };
}

/// A device that bytes are written to.
pub trait Outlet {
    /// The bytes that its writes took, and how many writes there were.
    ghost took: { Self → Writes };

    /// Writes bytes from the front of `buf`, and returns how many: at least one, if there is one
    /// (`some`). It returns at most the length of `buf` (`bound`). What was written grows by these
    /// bytes (`bytes`). The call is counted (`writes`), and so is a failure (`failures`).
    fn write(&mut self, buf: &[u8]) -> Result<usize, Failed>
        ensures bound { IfOk result (λ n. n ≤ length buf.now) }
        ensures some { IfOk result (λ n. 0 < length buf.now → 0 < n) }
        ensures bytes { WriteAppends (took self.old).written (took self.new).written result buf.now }
        ensures writes { (took self.new).writes ≡ (took self.old).writes + 1 }
        ensures failures { (took self.new).failures ≡ failures_after result (took self.old).failures };
}

/// Writes all bytes (`ok`). If a write fails, a prefix of them was written, but not all (`err`). A
/// failure is counted (`failures`).
pub fn write_all<W: Outlet>(writer: &mut W, bytes: &[u8]) -> Result<(), Failed>
    ensures ok { OnOk result (Appends (W.took writer.old).written (W.took writer.new).written bytes.now) }
    ensures err { OnErr result (AppendsPart (W.took writer.old).written (W.took writer.new).written bytes.now) }
    ensures failures { (W.took writer.new).failures ≡ failures_after result (W.took writer.old).failures }
{
    let mut done = 0;
    while done < bytes.len() {
        match writer.write(&bytes[done..]) {
            Ok(n) => done += n,
            Err(Failed) => return Err(Failed),
        }
    }
    Ok(())
}
