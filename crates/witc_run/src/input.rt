//! What a reader gives, read to its end.

ghost use Rattle.std.specs.Prelude.{◌≡◌, ◌<◌, true, length, vec_len, IfErr, IfOk};
ghost use Rattle.std.specs.Io.KnownBytes.{IsAtEnd};
ghost use Rattle.witc_run.specs.Input.{IsUnread, ReadsPart, ReadsWhole};

use crate::refusal::Refusal;
use std::alloc::{AllocError, Global};
use std::io::{ErrorKind, Read};

/// So many calls of a reader are made at most.
const MOST_CALLS: u64 = 4_294_967_296;

/// So many bytes a call asks for.
const ROOM: usize = 65_536;

/// Appends what one call gives, by way of this room, and answers whether that is the end. A call that was interrupted gives nothing.
fn read_more<R: Read>(reader: &mut R, room: &mut [u8], bytes: &mut Vec<u8>) -> Result<bool, Refusal>
    requires room { 0 < length room.old }
    ensures part { IfOk result (λ ended. ReadsPart (R.remaining reader.old) (R.remaining reader.new) bytes.old.items bytes.new.items) }
    ensures end { IfOk result (λ ended. ended ≡ true → IsAtEnd (R.remaining reader.new)) }
    ensures refused { IfErr result IsUnread }
    ensures kept { length room.new ≡ length room.old }
{
    match reader.read(room) {
        Ok(count) => {
            bytes.extend_from_slice(&room[..count])?;
            Ok(count == 0)
        }
        Err(error) => {
            if error.kind() == ErrorKind::Interrupted {
                Ok(false)
            } else {
                Err(Refusal::Unread)
            }
        }
    }
}

/// Room for what a call gives.
fn room(alloc: Global) -> Result<Vec<u8>, AllocError>
    ensures { IfOk result (λ room. 0 < vec_len room) }
{
    vec![in alloc; 0u8; ROOM]
}

/// All that the reader gives up to its end. A read that was interrupted is tried again.
///
/// Takes time and memory linear in the bytes, with 65,536 bytes at least. Refuses with `Unread` where a read fails, or where the reader
/// hasn't ended after 4,294,967,296 calls, and else for want of memory alone.
pub fn read_whole<R: Read>(alloc: Global, reader: &mut R) -> Result<Vec<u8>, Refusal>
    ensures whole { IfOk result (λ bytes. ReadsWhole (R.remaining reader.old) (R.remaining reader.new) bytes.items) }
    ensures refused { IfErr result IsUnread }
{
    let mut bytes = Vec::new(alloc);
    let mut room = room(alloc)?;
    for _ in 0..MOST_CALLS {
        if read_more(reader, &mut room, &mut bytes)? {
            return Ok(bytes);
        }
    }
    Err(Refusal::Unread)
}
