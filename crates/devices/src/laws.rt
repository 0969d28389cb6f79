//! The laws by which what is done of a slice and what is left of it are the slice.
ghost use Rattle.devices.specs.Slices.{WorksOff};

/// The laws by which a slice is worked off from its front; the call does nothing. They are for the
/// crates above, whose loops take a part of a slice at a time as `write_all` does.
pub fn law_slices()
    ensures { WorksOff }
{}
