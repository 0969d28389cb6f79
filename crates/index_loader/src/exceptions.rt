//! The exceptions of the gb18030 encoder.
ghost use Rattle.std.specs.Prelude.{◌≡◌, [], Ok, IfErr, IfOk, OnOk};
ghost use Rattle.std.specs.BTreeMap.{insert_entry};
ghost use Rattle.std.specs.Ordering.{nat_cmp};
ghost use Rattle.index_loader.specs.Exceptions.{IsParsed, exception_of, exceptions_beside, is_out_of_memory, with_exception};
ghost use Rattle.index_loader.specs.Numbered.{FaultIs};

use crate::exception_line::exception_on;
use crate::fault::{ExceptionCause, ExceptionFault};
use crate::line::split_at_byte;
use enc_names::Scalar;
use std::alloc::{AllocError, Global};
use std::collections::BTreeMap;
use std::marker::Model;

/// The name that the file of the exceptions has in a folder (see `Exceptions`).
pub const EXCEPTIONS_FILE: &str = "gb18030-exceptions.txt";

/// Code points that the gb18030 encoder writes as two bytes without its index.
/// Contracts see the pairs of code point and bytes, in the order of the code points.
#[derive(Drop)]
pub struct Exceptions {
    by_code_point: BTreeMap<u32, [u8; 2]>,
}

impl Model for Exceptions {
    ghost use Rattle.index_loader.specs.Exceptions.{ExceptionTable};

    ghost Value = { ExceptionTable };

    ghost view = { λ e. e.by_code_point.entries };
}

impl Exceptions {
    /// Reads a file of exceptions, with lines as in an index file. The exceptions are those that its
    /// lines hold; a fault names the first faulty line and its first cause.
    pub fn parse(alloc: Global, bytes: &[u8]) -> Result<Exceptions, ExceptionFault>
        ensures { IsParsed bytes.now result }
    {
        let mut exceptions = Exceptions::new(alloc);
        let mut rest = Some(bytes);
        let mut number = 0;
        while let Some(text) = rest {
            let (line, below) = split_at_byte(text, b'\n');
            number += 1;
            exceptions.put_line(number, line)?;
            rest = below;
        }
        Ok(exceptions)
    }

    /// The bytes of a code point, if it is an exception. Takes no memory.
    pub fn bytes_of(&self, code_point: Scalar) -> Option<[u8; 2]>
        ensures { result ≡ exception_of self.now code_point }
    {
        self.by_code_point.get(&code_point.get()).copied()
    }

    /// No exception.
    fn new(alloc: Global) -> Exceptions
        ensures { result ≡ [] }
    {
        Exceptions {
            by_code_point: BTreeMap::new(alloc),
        }
    }

    /// Puts what a line of this number holds beside what those above do.
    fn put_line(&mut self, number: u64, line: &[u8]) -> Result<(), ExceptionFault>
        ensures ok { OnOk result (with_exception number self.old line.now ≡ Ok self.new) }
        ensures err { IfErr result (λ fault. FaultIs (is_out_of_memory fault.cause) fault.line fault (with_exception number self.old line.now)) }
    {
        match exception_on(line) {
            Ok(None) => Ok(()),
            Ok(Some(exception)) => self.put(number, exception),
            Err(cause) => Err(ExceptionFault {
                line: number,
                cause,
            }),
        }
    }

    /// Puts the exception of the line of this number beside those above.
    fn put(&mut self, number: u64, exception: (Scalar, [u8; 2])) -> Result<(), ExceptionFault>
        ensures ok { OnOk result (exceptions_beside number self.old exception.0 exception.1 ≡ Ok self.new) }
        ensures err { IfErr result
            (λ fault. FaultIs (is_out_of_memory fault.cause) fault.line fault (exceptions_beside number self.old exception.0 exception.1)) }
    {
        if self.replace(exception.0, exception.1)?.is_some() {
            let cause = ExceptionCause::DuplicateCodePoint;
            return Err(ExceptionFault {
                line: number,
                cause,
            });
        }
        Ok(())
    }

    /// Gives a code point its bytes, by one search, and returns those that it had.
    fn replace(&mut self, code_point: Scalar, bytes: [u8; 2]) -> Result<Option<[u8; 2]>, AllocError>
        ensures old { IfOk result (λ old. old ≡ exception_of self.old code_point) }
        ensures new { OnOk result (self.new ≡ insert_entry nat_cmp self.old code_point bytes) }
    {
        Ok(self.by_code_point.insert(code_point.get(), bytes)?)
    }
}
