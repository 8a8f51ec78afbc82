// Reads a slot to its end.
ghost use Rattle.std.specs.Prelude.{◌≡◌, ◌<◌, ◌≤◌, [], length, IfOk};
ghost use Rattle.std.specs.Io.{ReadsAtMost};
ghost use Rattle.pbs_io.specs.Outside.{Reads};
ghost use Rattle.pbs_io.specs.ReadAll.{ReadsAll};

use crate::{Failed, Shelf};
use std::alloc::Global;
use thiserror::Error;

/// Why the rest of a slot was not read.
#[derive(Clone, Copy, Debug, PartialEq, Eq, Error)]
pub enum ReadFail {
    /// The shelf failed.
    #[error("the shelf failed")]
    Fault,
    /// More bytes were left than the limit.
    #[error("the file is too long")]
    TooLong,
    #[error("no memory was found")]
    Memory,
}

/// The bytes that one call of `read_slot` is offered room for.
const PIECE: usize = 65_536;

/// Reads the rest of the slot into `out`, in pieces of up to 65,536 bytes, and at most `limit + 1` bytes in all.
/// `Fault` comes only where the shelf's faults rose, and leaves a prefix in `out`, as `Memory` does; `TooLong` comes
/// exactly where more than `limit` bytes were left, and leaves the first `limit` of them.
pub fn read_all<S: Shelf>(
    alloc: Global,
    shelf: &mut S,
    slot: usize,
    limit: usize,
    out: &mut Vec<u8>,
) -> Result<(), ReadFail>
    requires slot_in { slot < 2 }
    requires limit_in { limit < 1073741824 }
    requires empty { out.old.items ≡ [] }
    ensures reads { ReadsAll (S.state shelf.old) (S.state shelf.new) slot limit out.new.items result }
    ensures short { IfOk result (λ done. length out.new.items ≤ limit) }
{
    let Ok(mut piece) = vec![in alloc; 0u8; PIECE] else {
        return Err(ReadFail::Memory);
    };
    while out.len() <= limit {
        let room = limit + 1 - out.len();
        match read_front(shelf, slot, piece.as_mut_slice(), room) {
            Err(_) => return Err(ReadFail::Fault),
            Ok(0) => return Ok(()),
            Ok(n) => {
                if out.extend_from_slice(&piece[..n]).is_err() {
                    return Err(ReadFail::Memory);
                }
            }
        }
    }
    out.truncate(limit);
    Err(ReadFail::TooLong)
}

/// One read of at most `room` bytes.
pub fn read_front<S: Shelf>(
    shelf: &mut S,
    slot: usize,
    piece: &mut [u8],
    room: usize,
) -> Result<usize, Failed>
    requires slot_in { slot < 2 }
    requires room_in { 0 < room }
    requires piece_in { 0 < length piece.old }
    ensures bound { ReadsAtMost result piece.new }
    ensures at_most { IfOk result (λ n. n ≤ room) }
    ensures reads { Reads (S.state shelf.old) (S.state shelf.new) slot piece.new result }
{
    if room < piece.len() {
        shelf.read_slot(slot, &mut piece[..room])
    } else {
        shelf.read_slot(slot, piece)
    }
}
