// A named file as a whole.
ghost use Rattle.std.specs.Prelude.{◌<◌};
ghost use Rattle.pbs_io.specs.Load.{Loads};

use crate::{ReadFail, Shelf, read_all};
use std::alloc::Global;

/// Opens the named file in the slot and reads it to its end, up to a limit in bytes.
pub fn load<S: Shelf>(
    alloc: Global,
    shelf: &mut S,
    slot: usize,
    name: &str,
    limit: usize,
) -> Result<Vec<u8>, ReadFail>
    requires slot_in { slot < 2 }
    requires limit_in { limit < 1073741824 }
    ensures { Loads (S.state shelf.old) (S.state shelf.new) slot name.now limit result }
{
    let Ok(()) = shelf.open_slot(slot, name) else {
        return Err(ReadFail::Fault);
    };
    let mut bytes = Vec::new(alloc);
    match read_all(alloc, shelf, slot, limit, &mut bytes) {
        Ok(()) => Ok(bytes),
        Err(fail) => Err(fail),
    }
}
