//! Bits of a mask.
ghost use Rattle.std.specs.Prelude.{◌≡◌, ◌+◌, ◌%◌, ◌^◌, ◌<◌, ◌≤◌, ℕ, List, Bool, length, drop, take};
ghost use Rattle.lane_ascii.specs.Bits.{first_set};
ghost use Rattle.lane_ascii.specs.Flags.{flags_set, IsNthFlag, IsSought};
ghost use lib.Lanes.{mask_l};

/// The number of the lowest set bit, or the number of lanes without one.
#[inline(always)]
pub(crate) fn lowest_set(mask: u64, lanes: usize) -> usize
    ensures { result ≡ first_set mask lanes }
{
    if mask == 0 {
        lanes
    } else {
        mask.trailing_zeros() as usize
    }
}

/// The number of the set bit with `n` set bits below it. The mask has more than `n` set bits.
pub(crate) fn nth_set(mask: u64, n: usize) -> usize
    ensures bound { result < 64 }
    ensures place { (flags : List Bool) → length flags ≤ 64 → mask ≡ mask_l flags
        → n < flags_set flags → IsNthFlag flags n result }
{
    if n == 0 {
        return lowest_of(mask);
    }
    let sought = Sought {
        bits: mask,
        left: n,
        at: 0,
    };
    let sought = halve(sought, 32);
    let sought = halve(sought, 16);
    let sought = halve(sought, 8);
    let sought = halve(sought, 4);
    let sought = halve(sought, 2);
    halve(sought, 1).at
}

/// The place of the lowest set bit, of a mask that has one: what is sought most often.
#[inline(always)]
fn lowest_of(mask: u64) -> usize
    ensures bound { result < 64 }
    ensures place { (flags : List Bool) → length flags ≤ 64 → mask ≡ mask_l flags
        → 0 < flags_set flags → IsNthFlag flags 0 result }
{
    let at = lowest_set(mask, 63);
    if at < 64 { at } else { 63 }
}

/// A set bit that is sought: the bits that it is among, how many of them are set below it, and the
/// place where they begin.
#[derive(Clone, Copy)]
pub(crate) struct Sought {
    pub(crate) bits: u64,
    pub(crate) left: usize,
    pub(crate) at: usize,
}

/// Decides in which half of twice `width` bits it is.
#[inline(always)]
fn halve(sought: Sought, width: usize) -> Sought
    requires width { width < 64 }
    requires at { sought.at + width < 64 }
    ensures half { (flags : List Bool) (n : ℕ) → IsSought flags n (width + width) sought
        → IsSought flags n width result }
    ensures at { result.at ≤ sought.at + width }
{
    let low = low_bits(sought.bits, width);
    let below = low.count_ones() as usize;
    if sought.left < below {
        return Sought {
            bits: low,
            ..sought
        };
    }
    Sought {
        bits: sought.bits >> width,
        left: sought.left - below,
        at: sought.at + width,
    }
}

/// Counts the set bits of a mask, those below one left out.
// In the loop over the bytes of a text.
#[inline(always)]
pub fn ones_behind(mask: u64, skipped: usize) -> usize
    requires { skipped < 64 }
    ensures { (flags : List Bool) → mask ≡ mask_l flags → result ≡ flags_set (drop skipped flags) }
{
    (mask >> skipped).count_ones() as usize
}

/// Counts the set bits of a mask below one of them.
// In the loop over the bytes of a text.
#[inline(always)]
pub(crate) fn ones_before(mask: u64, count: usize) -> usize
    requires { count < 64 }
    ensures { (flags : List Bool) → mask ≡ mask_l flags → result ≡ flags_set (take count flags) }
{
    low_bits(mask, count).count_ones() as usize
}

#[inline(always)]
fn low_bits(bits: u64, width: usize) -> u64
    requires { width < 64 }
    ensures { result ≡ bits % 2 ^ width }
{
    bits & ((1 << width) - 1)
}
