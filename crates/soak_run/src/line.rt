// The line of `soak`.
ghost use Rattle.std.specs.Prelude.{◌≡◌, ◌≤◌, ◌++◌, OnErr, OnOk};
ghost use Rattle.soak_run.specs.Soaks.{labelled, soak_line};

use crate::counting::Counts;
use pbs_base::Memory;
use std::alloc::Global;
use text_pieces::{put, put_number};

fn put_labelled(text: &mut Vec<u8>, label: &[u8], number: u64) -> Result<(), Memory>
    ensures { OnOk result (text.new.items ≡ text.old.items ++ labelled label.now number) }
{
    put(text, label)?;
    put_number(text, number)
}

fn put_line(text: &mut Vec<u8>, n: u32, counts: &Counts) -> Result<(), Memory>
    requires { n ≤ 1000 }
    ensures { OnOk result (text.new.items ≡ text.old.items ++ soak_line n counts.now) }
{
    put_labelled(text, b"soak ", n.into())?;
    put_labelled(text, b" vectors ", (10 * n).into())?;
    put_labelled(text, b" hit ", counts.hit.into())?;
    put_labelled(text, b" pass ", counts.pass.into())?;
    put_labelled(text, b" lost ", counts.lost.into())?;
    put(text, b"\n")
}

/// Appends the line of `soak n` with these counts. On `Memory` `out` is as it was.
pub fn write_line(alloc: Global, n: u32, counts: &Counts, out: &mut Vec<u8>) -> Result<(), Memory>
    requires { n ≤ 1000 }
    ensures ok { OnOk result (out.new.items ≡ out.old.items ++ soak_line n counts.now) }
    ensures err { OnErr result (out.new.items ≡ out.old.items) }
{
    let mut text = Vec::new(alloc);
    put_line(&mut text, n, counts)?;
    put(out, &text)
}
