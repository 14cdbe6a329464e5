//! What a file or standard input gives, read to its end.

ghost use Rattle.std.specs.Prelude.{◌≡◌, ◌<◌, length, vec_len, IfOk};
ghost use Rattle.teasel_files.specs.Contents.{IsContent};
ghost use Rattle.teasel_files.specs.Readings.{IsReading, ReadsWhole, may_begin as may_begin_so};

use std::alloc::Global;
use std::io::{ErrorKind, Read};
use teasel_messages::{ReadFault, has_preamble, is_text, is_wasm, may_be_text};

/// The bytes of a file; or, where it begins neither as WebAssembly does, with eight bytes at least, nor as WIT text does, some of the first ones.
#[derive(Drop)]
pub struct Content {
    pub bytes: Vec<u8>,
    pub whole: bool,
}

/// So many bytes a call asks for.
const ROOM: usize = 65_536;

/// So many calls of a reader are made at most.
const MOST_CALLS: u64 = 4_294_967_296;

/// What is known after a call.
#[derive(Clone, Copy)]
enum Reading {
    More,
    Ended,
    /// It begins neither as WebAssembly does nor as WIT text does.
    Foreign,
}

/// Whether bytes, or as many as there are, begin as WebAssembly does.
fn may_be_wasm(bytes: &[u8]) -> bool
    ensures { result ≡ may_begin_so bytes.now }
{
    b"\0asm".starts_with(bytes) || is_wasm(bytes)
}

/// The first bytes, by which it is decided whether more is read.
fn front(bytes: &[u8]) -> &[u8] {
    bytes.split_at(bytes.len().min(ROOM)).0
}

/// Appends what one call gives, by way of this room. A call that was interrupted gives nothing.
fn read_more<R: Read>(
    reader: &mut R,
    room: &mut [u8],
    bytes: &mut Vec<u8>,
    most: u64,
) -> Result<Reading, ReadFault>
    requires { 0 < length room.old }
    ensures reading { IfOk result (IsReading (R.remaining reader.old) (R.remaining reader.new) bytes.old.items bytes.new.items) }
    ensures kept { length room.new ≡ length room.old }
{
    match reader.read(room) {
        Ok(count) => {
            bytes.extend_from_slice(&room[..count])?;
            if !may_be_wasm(bytes) && !may_be_text(front(bytes)) {
                Ok(Reading::Foreign)
            } else if bytes.len() as u64 > most {
                Err(ReadFault::TooLong)
            } else if count == 0 {
                Ok(Reading::Ended)
            } else {
                Ok(Reading::More)
            }
        }
        Err(error) => {
            if error.kind() == ErrorKind::Interrupted {
                Ok(Reading::More)
            } else {
                Err(ReadFault::of(&error))
            }
        }
    }
}

/// Room for what a call gives.
fn room(alloc: Global) -> Result<Vec<u8>, ReadFault>
    ensures { IfOk result (λ room. 0 < vec_len room) }
{
    Ok(vec![in alloc; 0u8; ROOM]?)
}

/// All that the reader gives up to its end; or, where it begins neither as WebAssembly does nor as WIT text does, what came of the first calls. A read that was
/// interrupted is tried again.
pub fn read_within<R: Read>(alloc: Global, reader: &mut R, most: u64) -> Result<Content, ReadFault>
    ensures { IfOk result (IsContent (ReadsWhole (R.remaining reader.old) (R.remaining reader.new))) }
{
    let mut bytes = Vec::new(alloc);
    let mut room = room(alloc)?;
    for _ in 0..MOST_CALLS {
        match read_more(reader, &mut room, &mut bytes, most)? {
            Reading::More => {}
            Reading::Ended => {
                let whole = has_preamble(&bytes) || is_text(&bytes);
                return Ok(Content { bytes, whole });
            }
            Reading::Foreign => return Ok(Content {
                bytes,
                whole: false,
            }),
        }
    }
    Err(ReadFault::TooLong)
}
