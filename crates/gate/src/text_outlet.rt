//! Formatted text on a device.

use gateway::{Outlet, write_all};
use std::fmt;

/// A device that takes formatted text, without memory.
#[derive(Drop)]
pub struct TextOutlet<'d, W: Outlet> {
    device: &'d mut W,
}

impl<'d, W: Outlet> TextOutlet<'d, W> {
    /// Creates the outlet, whose text is written to this device.
    pub fn new(device: &'d mut W) -> TextOutlet<'d, W> {
        TextOutlet { device }
    }

    /// Writes the text of a value.
    pub fn put(&mut self, value: &impl fmt::Display) -> fmt::Result {
        fmt::Write::write_fmt(self, format_args!("{value}"))
    }
}

impl<W: Outlet> fmt::Write for TextOutlet<'_, W> {
    fn write_str(&mut self, text: &str) -> fmt::Result {
        write_all(self.device, text.as_bytes()).map_err(|_| fmt::Error)
    }
}
