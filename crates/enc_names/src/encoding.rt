//! The encodings, in the order of the Encoding Standard's table.
ghost use Rattle.std.specs.Prelude.{◌≡◌};
ghost use Rattle.enc_names.specs.LabelFile.{encoding_named, is_named, named_among};
ghost use Rattle.enc_names.specs.Names.{name_of};

/// An encoding of the Encoding Standard ("Names and labels"). [`Encoding::name`] gives each
/// variant's name.
#[derive(Clone, Copy, PartialEq, Eq, Debug)]
pub enum Encoding {
    /// `UTF-8`.
    Utf8,
    /// `IBM866`: Cyrillic, of DOS.
    Ibm866,
    /// `ISO-8859-2`: Central European.
    Iso8859_2,
    /// `ISO-8859-3`: South European.
    Iso8859_3,
    /// `ISO-8859-4`: North European.
    Iso8859_4,
    /// `ISO-8859-5`: Cyrillic.
    Iso8859_5,
    /// `ISO-8859-6`: Arabic.
    Iso8859_6,
    /// `ISO-8859-7`: Greek.
    Iso8859_7,
    /// `ISO-8859-8`: Hebrew in visual order.
    Iso8859_8,
    /// `ISO-8859-8-I`: Hebrew in logical order, with the index of ISO-8859-8.
    Iso8859_8I,
    /// `ISO-8859-10`: Nordic.
    Iso8859_10,
    /// `ISO-8859-13`: Baltic.
    Iso8859_13,
    /// `ISO-8859-14`: Celtic.
    Iso8859_14,
    /// `ISO-8859-15`: West European with the euro sign.
    Iso8859_15,
    /// `ISO-8859-16`: South-Eastern European.
    Iso8859_16,
    /// `KOI8-R`: Russian.
    Koi8R,
    /// `KOI8-U`: Ukrainian.
    Koi8U,
    /// `macintosh`: West European, of Mac OS.
    Macintosh,
    /// `windows-874`: Thai.
    Windows874,
    /// `windows-1250`: Central European.
    Windows1250,
    /// `windows-1251`: Cyrillic.
    Windows1251,
    /// `windows-1252`: West European.
    Windows1252,
    /// `windows-1253`: Greek.
    Windows1253,
    /// `windows-1254`: Turkish.
    Windows1254,
    /// `windows-1255`: Hebrew.
    Windows1255,
    /// `windows-1256`: Arabic.
    Windows1256,
    /// `windows-1257`: Baltic.
    Windows1257,
    /// `windows-1258`: Vietnamese.
    Windows1258,
    /// `x-mac-cyrillic`: Cyrillic, of Mac OS.
    XMacCyrillic,
    /// `GBK`: simplified Chinese, decoded as gb18030.
    Gbk,
    /// `gb18030`: simplified Chinese, with all of Unicode.
    Gb18030,
    /// `Big5`: traditional Chinese.
    Big5,
    /// `EUC-JP`: Japanese.
    EucJp,
    /// `ISO-2022-JP`: Japanese, in bytes below 0x80.
    Iso2022Jp,
    /// `Shift_JIS`: Japanese.
    ShiftJis,
    /// `EUC-KR`: Korean, with the extension of windows-949.
    EucKr,
    /// `replacement`: decodes to a single error, for labels that aren't safe to decode.
    Replacement,
    /// `UTF-16BE`.
    Utf16Be,
    /// `UTF-16LE`.
    Utf16Le,
    /// `x-user-defined`: bytes from 0x80 on as private-use code points.
    XUserDefined,
}

/// The Standard's table of encodings, a row each with its name: `$read!($value ..; ROWS)`.
macro_rules! table {
    ($read:ident $(, $value:expr)?) => {
        $read! {
            $($value)?;
            Utf8 "UTF-8",
            Ibm866 "IBM866",
            Iso8859_2 "ISO-8859-2",
            Iso8859_3 "ISO-8859-3",
            Iso8859_4 "ISO-8859-4",
            Iso8859_5 "ISO-8859-5",
            Iso8859_6 "ISO-8859-6",
            Iso8859_7 "ISO-8859-7",
            Iso8859_8 "ISO-8859-8",
            Iso8859_8I "ISO-8859-8-I",
            Iso8859_10 "ISO-8859-10",
            Iso8859_13 "ISO-8859-13",
            Iso8859_14 "ISO-8859-14",
            Iso8859_15 "ISO-8859-15",
            Iso8859_16 "ISO-8859-16",
            Koi8R "KOI8-R",
            Koi8U "KOI8-U",
            Macintosh "macintosh",
            Windows874 "windows-874",
            Windows1250 "windows-1250",
            Windows1251 "windows-1251",
            Windows1252 "windows-1252",
            Windows1253 "windows-1253",
            Windows1254 "windows-1254",
            Windows1255 "windows-1255",
            Windows1256 "windows-1256",
            Windows1257 "windows-1257",
            Windows1258 "windows-1258",
            XMacCyrillic "x-mac-cyrillic",
            Gbk "GBK",
            Gb18030 "gb18030",
            Big5 "Big5",
            EucJp "EUC-JP",
            Iso2022Jp "ISO-2022-JP",
            ShiftJis "Shift_JIS",
            EucKr "EUC-KR",
            Replacement "replacement",
            Utf16Be "UTF-16BE",
            Utf16Le "UTF-16LE",
            XUserDefined "x-user-defined",
        }
    };
}

/// The encodings of the table, in its order.
macro_rules! encodings_of {
    (; $($encoding:ident $name:literal,)*) => {
        [$(Encoding::$encoding),*]
    };
}

/// The name of an encoding in the table.
macro_rules! name_in {
    ($value:expr; $($encoding:ident $name:literal,)*) => {
        match $value {
            $(Encoding::$encoding => $name,)*
        }
    };
}

impl Encoding {
    /// Every encoding once, in the order of the Standard's table.
    pub const ALL: [Encoding; 40] = table!(encodings_of);

    /// The encoding's name, spelled as in the Standard's table.
    pub fn name(self) -> &'static str
        ensures { result.now ≡ name_of self }
    {
        table!(name_in, self)
    }

    /// The encoding with this name, ASCII case apart.
    pub(crate) fn named(name: &str) -> Option<Encoding>
        ensures { result ≡ encoding_named name.now }
    {
        named_among(&Encoding::ALL, name)
    }

    /// Whether the encoding has this name, ASCII case apart.
    fn is_named(self, name: &str) -> bool
        ensures { result ≡ is_named self name.now }
    {
        name.eq_ignore_ascii_case(self.name())
    }
}

/// The first encoding that has this name, ASCII case apart.
fn named_among(encodings: &[Encoding], name: &str) -> Option<Encoding>
    ensures { result ≡ named_among encodings.now name.now }
{
    for encoding in encodings {
        if encoding.is_named(name) {
            return Some(*encoding);
        }
    }
    None
}
