//! The texts that the documents are made of.

use enc_names::{Bom, Encoding, Setting};

/// The number of documents of which one keeps its byte order mark.
const KEPT: usize = 4;

/// Bytes that mean something in one encoding: characters, errors, shifts and line ends.
pub struct Sample {
    /// The encoding.
    pub given: Encoding,
    /// The bytes, the last of them a line end.
    pub fragments: &'static [&'static [u8]],
}

impl Sample {
    /// The setting of the document of this number.
    pub fn setting(&self, number: usize) -> Setting {
        let bom = if number % KEPT == 0 {
            Bom::Keep
        } else {
            Bom::Sniff
        };
        Setting::new(self.given, bom)
    }
}

/// Bytes that documents in every encoding have among their own.
pub const COMMON: [&'static [u8]; 8] = [
    b"a",
    b"a word, and another one",
    b"\r\n",
    b"\n\r",
    b"\x00",
    b"\x80",
    b"\xFF\xFE",
    b"\xEF\xBB\xBF",
];

/// The byte order marks.
pub const MARKS: [&'static [u8]; 3] = [b"\xEF\xBB\xBF", b"\xFE\xFF", b"\xFF\xFE"];

/// The encodings that documents are drawn in.
pub const SAMPLES: [Sample; 10] = [
    Sample {
        given: Encoding::Utf8,
        fragments: &[
            b"\xC0\x80",
            b"\xED\xA0\x80",
            b"\xE2\x82",
            b"\xC3\xA9",
            b"letters",
            b"\xE2\x82\xAC",
            b"\xF0\x9F\x98\x80",
            b"\r",
            b"\r\n",
        ],
    },
    Sample {
        given: Encoding::Utf16Le,
        fragments: &[
            b"\x3D\xD8",
            b"\x00\xDE",
            b"\xE9\x00",
            b"w\0o\0r\0d\0s\0",
            b"\xAC\x20",
            b"\x3D\xD8\x00\xDE",
            b"\n\0",
            b"\r\0\n\0",
        ],
    },
    Sample {
        given: Encoding::Gb18030,
        fragments: &[
            b"\x81\x30\x81\x41",
            b"\xE3\x32\x9A\x36",
            b"\x81\x30\x81\x30",
            b"\x81A",
            b"words",
            b"\x90\x30\x81\x30",
            b"\r",
            b"\r\n",
        ],
    },
    Sample {
        given: Encoding::Utf16Be,
        fragments: &[
            b"\xD8\x3D",
            b"\xDE\x00",
            b"\x00\xE9",
            b"\0w\0o\0r\0d\0s",
            b"\x20\xAC",
            b"\xD8\x3D\xDE\x00",
            b"\0\n",
            b"\0\r\0\n",
        ],
    },
    Sample {
        given: Encoding::ShiftJis,
        fragments: &[
            b"\x81\x30",
            b"\x82",
            b"\xF0\x40",
            b"\xB1",
            b"words",
            b"\x82\xA0\x88\x9F",
            b"\r",
            b"\r\n",
        ],
    },
    Sample {
        given: Encoding::EucJp,
        fragments: &[
            b"\x8E\x41",
            b"\x8F\xA2",
            b"\x8E\xB1",
            b"\x8F\xA2\xAF",
            b"words",
            b"\xA4\xA2\xB0\xA1",
            b"\r",
            b"\r\n",
        ],
    },
    Sample {
        given: Encoding::Iso2022Jp,
        fragments: &[
            b"\x1B$",
            b"\x1B(I1",
            b"\x0E",
            b"\x1B(J\\~",
            b"\x1B$B$\"",
            b"$\"0!",
            b"\x1B(B",
            b"words",
            b"\r",
            b"\r\n",
        ],
    },
    Sample {
        given: Encoding::EucKr,
        fragments: &[
            b"\xB0A",
            b"\xFF",
            b"words",
            b"\xB0\xA1\xB0\xA1",
            b"\r",
            b"\r\n",
        ],
    },
    Sample {
        given: Encoding::Big5,
        fragments: &[
            b"\x88A",
            b"\x81",
            b"\x88\x62",
            b"words",
            b"\xA4\x40\x88\xA5",
            b"\r",
            b"\r\n",
        ],
    },
    Sample {
        given: Encoding::Windows1252,
        fragments: &[b"\x81", b"\xBB\xBF\xFF", b"words", b"\x80", b"\r", b"\r\n"],
    },
];
