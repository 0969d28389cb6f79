//! The standard library's way to the answers of the lane kernels over text.

use std::str::from_utf8;

/// The number of code points.
pub fn count_scalars(text: &str) -> usize {
    text.chars().count()
}

/// The number of UTF-16 units.
pub fn count_utf16(text: &str) -> usize {
    text.encode_utf16().count()
}

/// The length of the well-formed UTF-8 at the front.
pub fn valid_run(bytes: &[u8]) -> usize {
    match from_utf8(bytes) {
        Ok(whole) => whole.len(),
        Err(fault) => fault.valid_up_to(),
    }
}

/// Writes the UTF-16 form while there is room, and returns its units.
pub fn to_utf16(text: &str, units: &mut [u16]) -> usize {
    let mut count: usize = 0;
    for (place, unit) in units.iter_mut().zip(text.encode_utf16()) {
        *place = unit;
        count = count.wrapping_add(1);
    }
    count
}

/// Writes the UTF-8 form while there is room, and returns its bytes. It is 0 if a surrogate is
/// lone.
pub fn to_utf8(units: &[u16], bytes: &mut [u8]) -> usize {
    let mut end: usize = 0;
    for decoded in char::decode_utf16(units.iter().copied()) {
        let Ok(c) = decoded else {
            return 0;
        };
        let mut buffer = [0; 4];
        let encoded = c.encode_utf8(&mut buffer);
        let next = end.wrapping_add(encoded.len());
        if let Some(place) = bytes.get_mut(end..next) {
            place.copy_from_slice(encoded.as_bytes());
        }
        end = next;
    }
    end
}

/// The place of the first lone surrogate.
pub fn first_lone_surrogate(units: &[u16]) -> Option<usize> {
    let mut before: usize = 0;
    for decoded in char::decode_utf16(units.iter().copied()) {
        let Ok(c) = decoded else {
            return Some(before);
        };
        before = before.wrapping_add(c.len_utf16());
    }
    None
}
