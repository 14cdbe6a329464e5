//! What a file looks like that is no WebAssembly.

ghost use Rattle.std.specs.Prelude.{◌≡◌, ◌≤◌, drop, length};
ghost use Rattle.teasel_messages.specs.Looks.{begins_as_component, begins_as_module, begins_as_text, begins_as_wasm, begins_with, behind_blanks, has_preamble as is_preamble_in, is_blank_byte, text_before_items, text_items};

/// What the first bytes of a file look like.
#[derive(Clone, Copy)]
pub enum Look {
    Empty,
    /// The front of a WebAssembly file, of less than eight bytes.
    Cut,
    Gzip,
    Zip,
    /// Text of a core module or a component.
    Wat,
    /// WIT text.
    Wit,
    Other,
}

/// Whether bytes begin as each WebAssembly file does.
pub fn is_wasm(bytes: &[u8]) -> bool
    ensures { result ≡ begins_as_wasm bytes.now }
{
    bytes.starts_with(b"\0asm")
}

/// Whether bytes begin as each WebAssembly file does, and are as many as its preamble has.
pub fn has_preamble(bytes: &[u8]) -> bool
    ensures { result ≡ is_preamble_in bytes.now }
{
    is_wasm(bytes) && bytes.len() >= 8
}

/// Whether bytes begin as a core module does.
pub fn is_module(bytes: &[u8]) -> bool
    ensures { result ≡ begins_as_module bytes.now }
{
    bytes.starts_with(b"\0asm\x01\0\0\0")
}

/// Whether bytes begin as a component does.
pub fn is_component(bytes: &[u8]) -> bool
    ensures { result ≡ begins_as_component bytes.now }
{
    bytes.starts_with(b"\0asm\x0d\0\x01\0")
}

/// Whether a byte is a space or ends a line.
fn is_blank(byte: u8) -> bool
    ensures { result ≡ is_blank_byte byte }
{
    byte == 32 || byte == 9 || byte == 10 || byte == 13
}

/// How many spaces and ends of lines stand in front.
fn leading_space(bytes: &[u8]) -> usize
    ensures behind { drop result bytes.now ≡ behind_blanks bytes.now }
    ensures within { result ≤ length bytes.now }
{
    let mut count = 0usize;
    while count < bytes.len() && is_blank(bytes[count]) {
        count += 1;
    }
    count
}

/// What stands behind the spaces and the ends of lines in front.
fn without_blanks(bytes: &[u8]) -> &[u8]
    ensures { result.now ≡ behind_blanks bytes.now }
{
    bytes.split_at(leading_space(bytes)).1
}

/// How WIT text begins.
const WIT_FRONTS: [&str; 9] = [
    "package ",
    "//",
    "/*",
    "world ",
    "interface ",
    "use ",
    "@since",
    "@unstable",
    "@deprecated",
];

/// Whether a text begins with a comment, or with an attribute of an item.
fn is_before_items(text: &[u8]) -> bool
    ensures { result ≡ begins_with text_before_items text.now }
{
    text.starts_with(b"//")
        || text.starts_with(b"/*")
        || text.starts_with(b"@since")
        || text.starts_with(b"@unstable")
        || text.starts_with(b"@deprecated")
}

/// Whether a text begins with what names a package, or with an item.
fn is_item(text: &[u8]) -> bool
    ensures { result ≡ begins_with text_items text.now }
{
    text.starts_with(b"package ")
        || text.starts_with(b"world ")
        || text.starts_with(b"interface ")
        || text.starts_with(b"use ")
}

/// Whether bytes begin as WIT text does, behind spaces and ends of lines.
pub fn is_text(bytes: &[u8]) -> bool
    ensures { result ≡ begins_as_text bytes.now }
{
    let text = without_blanks(bytes);
    is_item(text) || is_before_items(text)
}

/// Whether bytes may be the first ones of WIT text.
pub fn may_be_text(bytes: &[u8]) -> bool {
    if is_text(bytes) {
        return true;
    }
    let text = without_blanks(bytes);
    for front in WIT_FRONTS {
        if front.as_bytes().starts_with(text) {
            return true;
        }
    }
    false
}

/// What these first bytes look like.
pub fn look_of(bytes: &[u8]) -> Look {
    let text = without_blanks(bytes);
    if bytes.is_empty() {
        Look::Empty
    } else if b"\0asm".starts_with(bytes) || is_wasm(bytes) {
        Look::Cut
    } else if bytes.starts_with(b"\x1f\x8b") {
        Look::Gzip
    } else if bytes.starts_with(b"PK\x03\x04") {
        Look::Zip
    } else if text.starts_with(b"(module") || text.starts_with(b"(component") {
        Look::Wat
    } else if is_text(bytes) {
        Look::Wit
    } else {
        Look::Other
    }
}
