//! Texts of a character and a letter in turn, which tests of bulk calls have in common.

/// Whether the text has `count` characters: in turn this one and a letter.
pub fn is_in_turn(text: &str, count: usize, code_point: char) -> bool {
    for (at, c) in text.chars().enumerate() {
        if c != (if at % 2 == 0 { code_point } else { 'a' }) {
            return false;
        }
    }
    text.chars().count() == count
}
