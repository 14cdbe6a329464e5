//! String encodings as bytes.

ghost use Rattle.std.specs.Prelude.{◌≡◌};
ghost use Rattle.wit_metadata.specs.Encodings.{code_of, encoding_at};

use wit_model::StringEncoding;

/// The byte that stands for an encoding: 0, 1 or 2 for UTF-8, UTF-16 and compact UTF-16 (wit-component README, "Custom Section Format").
pub fn encoding_byte(encoding: StringEncoding) -> u8
    ensures { result ≡ code_of encoding }
{
    match encoding {
        StringEncoding::UTF8 => 0,
        StringEncoding::UTF16 => 1,
        StringEncoding::CompactUTF16 => 2,
    }
}

/// The encoding that a byte stands for, and none above 2.
pub fn encoding_of(byte: u8) -> Option<StringEncoding>
    ensures { result ≡ encoding_at byte }
{
    match byte {
        0 => Some(StringEncoding::UTF8),
        1 => Some(StringEncoding::UTF16),
        2 => Some(StringEncoding::CompactUTF16),
        _ => None,
    }
}
