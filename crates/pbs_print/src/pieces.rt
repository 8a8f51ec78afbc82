// Pieces of a text.
ghost use Rattle.std.specs.Prelude.{◌≡◌, ◌++◌, OnOk, decimal};
ghost use Rattle.pbs_print.specs.Canonical.{lead, bit_text};

use itoa::Buffer;
use pbs_base::Memory;

pub(crate) fn put(text: &mut Vec<u8>, piece: &[u8]) -> Result<(), Memory>
    ensures { OnOk result (text.new.items ≡ text.old.items ++ piece.now) }
{
    match text.extend_from_slice(piece) {
        Ok(()) => Ok(()),
        Err(_) => Err(Memory),
    }
}

// What stands before piece n of joined pieces.
pub(crate) fn put_lead(text: &mut Vec<u8>, n: usize, separator: &[u8]) -> Result<(), Memory>
    ensures { OnOk result (text.new.items ≡ text.old.items ++ lead n separator.now) }
{
    if n == 0 { Ok(()) } else { put(text, separator) }
}

pub(crate) fn put_number(text: &mut Vec<u8>, number: u32) -> Result<(), Memory>
    ensures { OnOk result (text.new.items ≡ text.old.items ++ decimal number) }
{
    let mut buffer = Buffer::new();
    put(text, buffer.format(number).as_bytes())
}

pub(crate) fn put_bit(text: &mut Vec<u8>, bit: bool) -> Result<(), Memory>
    ensures { OnOk result (text.new.items ≡ text.old.items ++ bit_text bit) }
{
    if bit {
        put(text, b"1")
    } else {
        put(text, b"0")
    }
}
