//! Plain loops over bytes with the answers of the lane kernels.

/// The length of the ASCII at the front.
pub fn ascii_run(bytes: &[u8]) -> usize {
    for (at, byte) in bytes.iter().enumerate() {
        if *byte >= 0x80 {
            return at;
        }
    }
    bytes.len()
}

/// The length of what ISO-2022-JP decodes to itself at the front.
pub fn plain_run_iso(bytes: &[u8]) -> usize {
    for (at, byte) in bytes.iter().enumerate() {
        if *byte >= 0x80 || *byte == 0x0E || *byte == 0x0F || *byte == 0x1B {
            return at;
        }
    }
    bytes.len()
}

/// The number of line marks.
pub fn count_line_ends(bytes: &[u8]) -> usize {
    let mut count: usize = 0;
    let mut behind_cr = false;
    for byte in bytes {
        if *byte == b'\r' || *byte == b'\n' && !behind_cr {
            count = count.wrapping_add(1);
        }
        behind_cr = *byte == b'\r';
    }
    count
}

/// The place of line mark `n`, the first being 0.
pub fn nth_line_end(bytes: &[u8], n: usize) -> Option<usize> {
    let mut left = n;
    let mut behind_cr = false;
    for (at, byte) in bytes.iter().enumerate() {
        if *byte == b'\r' || *byte == b'\n' && !behind_cr {
            if left == 0 {
                return Some(at);
            }
            left -= 1;
        }
        behind_cr = *byte == b'\r';
    }
    None
}

/// Swaps the bytes of each pair.
pub fn swap_pairs(bytes: &mut [u8]) {
    for pair in bytes.chunks_exact_mut(2) {
        pair.reverse();
    }
}

/// Writes each byte as a unit.
pub fn widen(bytes: &[u8], units: &mut [u16]) {
    for (unit, byte) in units.iter_mut().zip(bytes.iter()) {
        *unit = u16::from(*byte);
    }
}
