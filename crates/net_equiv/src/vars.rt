// Lists of variables, in order.
ghost use Rattle.std.specs.Prelude.{◌≡◌, ◌↔◌, ◌≤◌, ◌<◌, ◌+◌, ℕ, length, slice_get, IsTrue, OnOk, Some};
ghost use Rattle.net_equiv.specs.Cones.{ComesBefore, Has};
ghost use Rattle.net_equiv.specs.inner.Walking.{Adds, IsPlace};

use crate::answer::VarName;
use pbs_base::Memory;

fn comes_before(x: VarName, y: VarName) -> bool
    ensures { IsTrue result ↔ ComesBefore x y }
{
    match (x, y) {
        (VarName::Input(m), VarName::Input(n)) => m < n,
        (VarName::Input(_), _) => true,
        (VarName::A(m), VarName::A(n)) => m < n,
        (VarName::A(_), VarName::B(_)) => true,
        (VarName::B(m), VarName::B(n)) => m < n,
        _ => false,
    }
}

// Where the name stands, or is to stand.
fn place(vars: &[VarName], name: VarName) -> usize
    ensures { IsPlace vars.now name result }
{
    for (k, x) in vars.iter().enumerate() {
        if !comes_before(*x, name) {
            return k;
        }
    }
    vars.len()
}

fn is_name(x: VarName, y: VarName) -> bool
    ensures { IsTrue result ↔ (x ≡ y) }
{
    x == y
}

fn stands_at(vars: &[VarName], n: usize, name: VarName) -> bool
    ensures { IsTrue result ↔ (slice_get vars.now n ≡ Some name) }
{
    match vars.get(n) {
        Some(x) => is_name(*x, name),
        None => false,
    }
}

/// Puts the name into the list, in its place, unless it is there.
pub(crate) fn add(vars: &mut Vec<VarName>, name: VarName) -> Result<(), Memory>
    ensures adds { Adds (λ x. x ≡ name) vars.old.items vars.new.items }
    ensures has { OnOk result (Has vars.new.items name) }
{
    let n = place(vars, name);
    if stands_at(vars, n, name) {
        return Ok(());
    }
    vars.insert(n, name)?;
    Ok(())
}

/// Where the name stands.
pub(crate) fn position(vars: &[VarName], name: VarName) -> u8
    requires few { length vars.now ≤ 16 }
    requires has { Has vars.now name }
    ensures { slice_get vars.now result ≡ Some name }
{
    for (k, x) in vars.iter().enumerate() {
        if is_name(*x, name) {
            return k as u8;
        }
    }
    0
}
