// What each register takes, in the order of declaration.
ghost use Rattle.std.specs.Prelude.{◌≡◌, ◌≤◌, [], ◌∷◌, ◌++◌, IfOk, OnOk, map, length, if◌then◌else◌};
ghost use Rattle.vlog_text.specs.declared.raw.RawDecl.{RawDecl as DeclItem};
ghost use Rattle.vlog_text.specs.Standing.{is_reg, inputs, registers, register_wire};
ghost use Rattle.vlog_elaborate.specs.inner.Parts.{IsChecked, ArePlaces};

use crate::check::Checked;
use net_core::{Wire, Wires};
use pbs_base::Memory;
use std::alloc::Global;
use vlog_order::renumber;
use vlog_text::{DeclKind, RawDecl, RawName, RawNetlist};

// The wire of the register's `always`.
fn register_wire(raw: &RawNetlist, checked: &Checked, places: &[u32], name: &RawName) -> Wire
    requires checked { IsChecked raw.now checked.now }
    requires few { length (inputs raw.now) ≤ 64 }
    requires places { ArePlaces raw.now places.now }
    ensures { result ≡ register_wire raw.now name.now }
{
    match checked.numbers.always(&name.word) {
        Some(n) => renumber(places, checked.numbers.pin(&raw.regs.as_slice()[n].wire)),
        None => Wire::Const(false),
    }
}

fn is_register(kind: DeclKind) -> bool
    ensures { result ≡ is_reg kind }
{
    matches!(kind, DeclKind::Reg)
}

// Adds the wire of the declared name, if it is a register.
fn add_register(
    wires: &mut Wires,
    raw: &RawNetlist,
    checked: &Checked,
    places: &[u32],
    decl: &RawDecl,
) -> Result<(), Memory>
    requires checked { IsChecked raw.now checked.now }
    requires few { length (inputs raw.now) ≤ 64 }
    requires places { ArePlaces raw.now places.now }
    ensures { OnOk result (wires.new ≡ wires.old
        ++ (if is_reg decl.now.kind then register_wire raw.now decl.now.name ∷ [] else [])) }
{
    if !is_register(decl.kind) {
        return Ok(());
    }
    wires.push(register_wire(raw, checked, places, &decl.name))
}

/// The wire that each register takes.
pub(crate) fn register_wires(
    alloc: Global,
    raw: &RawNetlist,
    checked: &Checked,
    places: &[u32],
) -> Result<Wires, Memory>
    requires checked { IsChecked raw.now checked.now }
    requires few { length (inputs raw.now) ≤ 64 }
    requires places { ArePlaces raw.now places.now }
    ensures { IfOk result (λ wires. wires ≡ map (register_wire raw.now) (registers raw.now)) }
{
    let mut wires = Wires::new(alloc);
    for decl in raw.decls.as_slice() {
        add_register(&mut wires, raw, checked, places, decl)?;
    }
    Ok(wires)
}
