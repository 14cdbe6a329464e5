//! Places of a text, as lines and columns.

ghost use Rattle.std.specs.Prelude.{◌≡◌, ◌+◌, ◌<◌, ◌^◌, count_by, reverse};
ghost use Rattle.std.specs.List.{take_while};
ghost use Rattle.wit_text.specs.Places.{begins_character as begins_character_lem, column_of, is_in_line, is_line_feed, line_of};
ghost use Rattle.wit_text.specs.Places.{since_line_feed as since_lem};

fn begins_character(byte: u8) -> bool
    ensures { result ≡ begins_character_lem byte }
{
    byte < 128 || byte >= 192
}

/// The characters since the last line feed, with one byte more.
fn since_line_feed(count: usize, byte: u8) -> usize
    requires { count + 1 < 2 ^ 64 }
    ensures { result ≡ since_lem count byte }
{
    if byte == b'\n' {
        0
    } else if begins_character(byte) {
        count + 1
    } else {
        count
    }
}

fn line_behind(before: &[u8]) -> usize
    ensures { result ≡ count_by is_line_feed before.now + 1 }
{
    before.iter().filter(|byte| **byte == b'\n').count() + 1
}

fn column_behind(before: &[u8]) -> usize
    ensures { result ≡ count_by begins_character_lem (take_while is_in_line (reverse before.now)) + 1 }
{
    let mut count = 0usize;
    for byte in before {
        count = since_line_feed(count, *byte);
    }
    count + 1
}

/// The line and the column of a byte of a text, both counted from 1: the line feeds before it, and the characters since the last of them. A byte
/// that the text doesn't have is as its end. Takes time linear in the text.
pub fn line_and_column(text: &str, at: usize) -> (usize, usize)
    ensures line { result.0 ≡ line_of text.now at }
    ensures column { result.1 ≡ column_of text.now at }
{
    let bytes = text.as_bytes();
    let before = bytes.split_at(at.min(bytes.len())).0;
    (line_behind(before), column_behind(before))
}
