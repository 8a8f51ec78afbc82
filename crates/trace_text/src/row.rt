// The line of a row: docs/FORMATS.md, "Report".
ghost use Rattle.std.specs.Prelude.{◌≡◌, ◌≤◌, ◌<◌, ◌++◌, length};
ghost use Rattle.trace_text.specs.Held.{Holds};
ghost use Rattle.trace_text.specs.HeldBytes.{held_bytes};
ghost use Rattle.trace_text.specs.Reports.{is_on, end_line, row_line};

use crate::Held;
use itoa::Buffer;
use pbs_base::Names;
use pbs_io::{Sink, WriteFail};

// Bit n of the number.
fn bit(on: u128, n: usize) -> bool
    requires { n < 128 }
    ensures { result ≡ is_on on n }
{
    (on >> n) % 2 == 1
}

// Adds two pieces to what is held.
fn write_both<K: Sink>(
    held: &mut Held,
    sink: &mut K,
    first: &[u8],
    second: &[u8],
) -> Result<(), WriteFail>
    ensures { Holds (K.state sink.old) (K.state sink.new) (held_bytes held.old) (held_bytes held.new)
        (first.now ++ second.now) result }
{
    let Ok(()) = held.write(sink, first) else {
        return Err(WriteFail::Fault);
    };
    held.write(sink, second)
}

/// Adds the line of a row to what is held: the name n stands in it where bit n of `on` is 1.
pub fn hold_row<K: Sink>(
    held: &mut Held,
    sink: &mut K,
    row: u64,
    names: &Names,
    on: u128,
) -> Result<(), WriteFail>
    requires { length names.now ≤ 128 }
    ensures { Holds (K.state sink.old) (K.state sink.new) (held_bytes held.old) (held_bytes held.new)
        (row_line names.now row (is_on on)) result }
{
    let mut digits = Buffer::new();
    let Ok(()) = held.write(sink, digits.format(row).as_bytes()) else {
        return Err(WriteFail::Fault);
    };
    let mut any = false;
    for n in 0..names.len() {
        if !bit(on, n) {
            continue;
        }
        let Some(name) = names.get(n) else {
            unreachable!();
        };
        let Ok(()) = write_both(held, sink, b" ", name.bytes()) else {
            return Err(WriteFail::Fault);
        };
        any = true;
    }
    held.write(sink, if any { b"\n" } else { b" -\n" })
}

/// Adds the last line of a report that ends with its trace: how many entries there were.
pub fn hold_end<K: Sink>(held: &mut Held, sink: &mut K, count: u64) -> Result<(), WriteFail>
    ensures { Holds (K.state sink.old) (K.state sink.new) (held_bytes held.old) (held_bytes held.new)
        (end_line count) result }
{
    let mut digits = Buffer::new();
    let Ok(()) = write_both(held, sink, b"end ", digits.format(count).as_bytes()) else {
        return Err(WriteFail::Fault);
    };
    held.write(sink, b"\n")
}
