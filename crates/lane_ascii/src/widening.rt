//! Bytes as units of 16 bits.
ghost use Rattle.std.specs.Prelude.{◌≡◌, ◌+◌, ◌≤◌, ◌++◌, ◌↔◌, length, take, drop, IsOk, IfErr, IfOk, OnOk, OnErr};
ghost use Rattle.lane_ascii.specs.Room.{room_needed};

use crate::room::NeedsRoom;
use std::simd::prelude::*;

/// Writes each byte as a unit at the front of `units` (`ok`). Returns how many there are (`count`).
/// If `units` is shorter than `bytes` (`room`), it writes nothing (`err`) and returns the number of
/// the bytes (`needed`).
pub fn widen(bytes: &[u8], units: &mut [u16]) -> Result<usize, NeedsRoom>
    ensures room { IsOk result ↔ (length bytes.now ≤ length units.old) }
    ensures count { IfOk result (λ n. n ≡ length bytes.now) }
    ensures ok { OnOk result (units.new ≡ bytes.now ++ drop (length bytes.now) units.old) }
    ensures needed { IfErr result (λ e. room_needed e ≡ length bytes.now) }
    ensures err { OnErr result (units.new ≡ units.old) }
{
    if units.len() < bytes.len() {
        return Err(NeedsRoom(bytes.len()));
    }
    if bytes.len() >= 16 {
        widen_long(bytes, units);
    } else {
        widen_short(bytes, units);
    }
    Ok(bytes.len())
}

/// Sixteen at a time. The last load and the last store begin among what was written, and write it
/// again.
#[inline(always)]
fn widen_long(bytes: &[u8], units: &mut [u16])
    requires some { 16 ≤ length bytes.now }
    requires room { length bytes.now ≤ length units.old }
    ensures { units.new ≡ bytes.now ++ drop (length bytes.now) units.old }
{
    let mut at = 0;
    'steps: while bytes.len() - at >= 16 {
        widen_16(bytes, units, at);
        at += 16;
    }
    widen_16(bytes, units, bytes.len() - 16);
}

#[inline(always)]
fn widen_16(bytes: &[u8], units: &mut [u16], at: usize)
    requires bytes { at + 16 ≤ length bytes.now }
    requires units { at + 16 ≤ length units.old }
    ensures { units.new ≡ take at units.old ++ (take 16 (drop at bytes.now) ++ drop (at + 16) units.old) }
{
    let wide: u16x16 = u8x16::from_slice(&bytes[at..]).cast();
    wide.copy_to_slice(&mut units[at..]);
}

#[inline(always)]
fn widen_short(bytes: &[u8], units: &mut [u16])
    requires { length bytes.now ≤ length units.old }
    ensures { units.new ≡ bytes.now ++ drop (length bytes.now) units.old }
{
    'bytes: for (at, byte) in bytes.iter().enumerate() {
        units[at] = u16::from(*byte);
    }
}
