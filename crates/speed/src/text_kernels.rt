//! The lane kernels over text, compared with the standard library.

use crate::lanes::By;
use lane_utf::{
    count_scalars, count_utf16, first_lone_surrogate, utf8_to_utf16, utf16_to_utf8, valid_run,
};
use oracle::text_loops;
use std::alloc::{AllocError, Global};

/// A text's other forms: its UTF-16 units, and room for its bytes.
#[derive(Drop)]
pub struct Forms {
    units: Vec<u16>,
    bytes: Vec<u8>,
}

impl Forms {
    /// The forms of a text.
    pub fn of(alloc: Global, text: &str) -> Result<Forms, AllocError> {
        let mut units = vec![in alloc; 0u16; count_utf16(text)]?;
        let _ = utf8_to_utf16(text, &mut units);
        let bytes = vec![in alloc; 0u8; text.len()]?;
        Ok(Forms { units, bytes })
    }
}

/// A kernel.
#[derive(Clone, Copy)]
pub enum TextKernel {
    /// The number of code points.
    CountScalars,
    /// The number of UTF-16 units.
    CountUtf16,
    /// The length of the well-formed UTF-8 at the front.
    ValidRun,
    /// The UTF-16 form.
    ToUtf16,
    /// The UTF-8 form of the UTF-16 form.
    ToUtf8,
    /// A look for a lone surrogate.
    FirstLoneSurrogate,
}

/// The kernels that are measured, each with its name.
pub const TEXT_KERNELS: [(&str, TextKernel); 6] = [
    ("count_scalars", TextKernel::CountScalars),
    ("count_utf16", TextKernel::CountUtf16),
    ("valid_run", TextKernel::ValidRun),
    ("utf8_to_utf16", TextKernel::ToUtf16),
    ("utf16_to_utf8", TextKernel::ToUtf8),
    ("first_lone_surrogate", TextKernel::FirstLoneSurrogate),
];

impl TextKernel {
    /// Works on a text or one of its forms. Returns a number that depends on it.
    pub fn run(self, by: By, text: &str, forms: &mut Forms) -> usize {
        match by {
            By::Kernel => self.run_kernel(text, forms),
            By::Plain => self.run_plain(text, forms),
        }
    }

    /// Like `run`, by the kernel.
    fn run_kernel(self, text: &str, forms: &mut Forms) -> usize {
        match self {
            TextKernel::CountScalars => count_scalars(text),
            TextKernel::CountUtf16 => count_utf16(text),
            TextKernel::ValidRun => valid_run(text.as_bytes()),
            TextKernel::ToUtf16 => utf8_to_utf16(text, &mut forms.units).unwrap_or(0),
            TextKernel::ToUtf8 => utf16_to_utf8(&forms.units, &mut forms.bytes).unwrap_or(0),
            TextKernel::FirstLoneSurrogate => {
                first_lone_surrogate(&forms.units).unwrap_or(forms.units.len())
            }
        }
    }

    /// Like `run`, by the standard library.
    fn run_plain(self, text: &str, forms: &mut Forms) -> usize {
        match self {
            TextKernel::CountScalars => text_loops::count_scalars(text),
            TextKernel::CountUtf16 => text_loops::count_utf16(text),
            TextKernel::ValidRun => text_loops::valid_run(text.as_bytes()),
            TextKernel::ToUtf16 => text_loops::to_utf16(text, &mut forms.units),
            TextKernel::ToUtf8 => text_loops::to_utf8(&forms.units, &mut forms.bytes),
            TextKernel::FirstLoneSurrogate => {
                text_loops::first_lone_surrogate(&forms.units).unwrap_or(forms.units.len())
            }
        }
    }
}
