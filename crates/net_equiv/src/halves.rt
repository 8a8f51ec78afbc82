// Two wires compared, each of a netlist of its own.
ghost use Rattle.std.specs.Prelude.{◌≡◌, ◌≤◌, length, IfErr, IfOk, OnOk};
ghost use Rattle.net_core.specs.Circuits.{IsThere};
ghost use Rattle.net_eval.specs.Assignments.{IsOrdered};
ghost use Rattle.net_equiv.specs.declared.fail.CompareFail.TheVariants as fail;
ghost use Rattle.bool_bdd.specs.Diagrams.{Keeps};
ghost use Rattle.net_core.specs.Rows.{value};
ghost use Rattle.net_equiv.specs.inner.Filling.{IsClear};
ghost use Rattle.net_equiv.specs.inner.Standing.{view_of, IsLeastApart, Tells};
ghost use Rattle.net_equiv.specs.Told.{AreValues};
ghost use Rattle.net_equiv.specs.inner.Halves.{half_view, AreClear, IsFilledFor, IsHalf, IsHalfOutcome, IsHalfWide, IsToldBy};

use crate::answer::{Comparison, Difference, Values, VarName};
use crate::cone::{Cone, fill};
use crate::fail::CompareFail;
use crate::nodes::{Side, unlike};
use bool_bdd::{Node, Store};
use net_core::{Gate, Wire};
use pbs_base::Memory;
use std::alloc::Global;

/// One netlist's part in a comparison: its gates, what its registers count as, and the compared wire.
#[derive(Clone, Copy)]
pub(crate) struct Half<'a> {
    pub gates: &'a [Gate],
    pub names: &'a [VarName],
    pub root: Wire,
}

/// Room for the two cones of a comparison.
#[derive(Drop)]
pub(crate) struct Cones {
    pub a: Cone,
    pub b: Cone,
}

// The least vector for which the two wires differ.
fn least_apart(
    alloc: Global,
    a: &Half,
    b: &Half,
    cones: &mut Cones,
    vars: &[VarName],
    reset: bool,
) -> Result<Option<u64>, Memory>
    requires few { length vars.now ≤ 16 }
    requires a { IsHalf a.now }
    requires b { IsHalf b.now }
    requires a_filled { IsFilledFor a.now vars.now cones.old.a }
    requires b_filled { IsFilledFor b.now vars.now cones.old.b }
    ensures apart { IfOk result
        (IsLeastApart (half_view a.now vars.now reset) (half_view b.now vars.now reset) a.now.root b.now.root) }
    ensures clear { OnOk result (AreClear a.now b.now cones.new) }
{
    let mut store = Store::new(alloc);
    let a_node = root_node(a, vars, reset, &mut store, &mut cones.a)?;
    let b_node = root_node(b, vars, reset, &mut store, &mut cones.b)?;
    let apart = unlike(&mut store, a_node, b_node)?;
    Ok(store.least(apart))
}

// The node of the half's wire. The half's cone is clear then.
fn root_node(
    half: &Half,
    vars: &[VarName],
    reset: bool,
    store: &mut Store,
    cone: &mut Cone,
) -> Result<Node, Memory>
    requires few { length vars.now ≤ 16 }
    requires half { IsHalf half.now }
    requires filled { IsFilledFor half.now vars.now cone.old }
    ensures keeps { Keeps store.old store.new }
    ensures tells { IfOk result
        (Tells store.new (half_view half.now vars.now reset) (λ z. value z half.now.root)) }
    ensures clear { OnOk result (IsClear (length half.now.gates.now) cone.new) }
{
    let side = side_of(half, vars, reset);
    side.nodes(half.root, store, cone)?;
    let node = side.wire_node(store, cone.known.as_slice(), half.root)?;
    cone.clear();
    Ok(node)
}

fn side_of<'a>(half: &Half<'a>, vars: &'a [VarName], reset: bool) -> Side<'a>
    ensures { view_of result ≡ half_view half.now vars.now reset }
{
    Side {
        gates: half.gates,
        names: half.names,
        vars,
        reset,
    }
}

// Each variable with its bit of the vector.
fn values(alloc: Global, vars: &[VarName], vector: u64) -> Result<Values, Memory>
    requires { length vars.now ≤ 16 }
    ensures { IfOk result (AreValues vars.now vector) }
{
    let mut values = Values::new(alloc);
    for (t, name) in vars.iter().enumerate() {
        values.push((*name, (vector >> t) % 2 == 1))?;
    }
    Ok(values)
}

// What the least vector tells.
fn tell(
    alloc: Global,
    a: &Half,
    b: &Half,
    c: Comparison,
    vars: &[VarName],
    least: Option<u64>,
) -> Result<Option<Difference>, Memory>
    requires few { length vars.now ≤ 16 }
    requires least { IsLeastApart (half_view a.now vars.now c.reset) (half_view b.now vars.now c.reset)
        a.now.root b.now.root least }
    ensures { IfOk result (IsToldBy a.now b.now c vars.now) }
{
    // For the proof alone, whose clauses name both halves.
    let _ = (a.root, b.root);
    match least {
        None => Ok(None),
        Some(vector) => {
            let values = values(alloc, vars, vector)?;
            Ok(Some(Difference {
                reset: c.reset,
                register: c.register,
                number: c.number,
                values,
            }))
        }
    }
}

// From the cones to what they tell.
fn finish(
    alloc: Global,
    a: &Half,
    b: &Half,
    c: Comparison,
    cones: &mut Cones,
    vars: &[VarName],
) -> Result<Option<Difference>, CompareFail>
    requires few { length vars.now ≤ 16 }
    requires a { IsHalf a.now }
    requires b { IsHalf b.now }
    requires a_filled { IsFilledFor a.now vars.now cones.old.a }
    requires b_filled { IsFilledFor b.now vars.now cones.old.b }
    ensures told { IfOk result (IsToldBy a.now b.now c vars.now) }
    ensures memory { IfErr result (λ e. e ≡ fail.Memory) }
    ensures clear { OnOk result (AreClear a.now b.now cones.new) }
{
    match least_apart(alloc, a, b, cones, vars, c.reset) {
        Ok(least) => match tell(alloc, a, b, c, vars, least) {
            Ok(told) => Ok(told),
            Err(Memory) => Err(CompareFail::Memory),
        },
        Err(Memory) => Err(CompareFail::Memory),
    }
}

/// Compares the two wires. `None` where they are equal in all rows.
pub(crate) fn compare_halves(
    alloc: Global,
    a: &Half,
    b: &Half,
    cones: &mut Cones,
    c: Comparison,
) -> Result<Option<Difference>, CompareFail>
    requires a { IsHalf a.now }
    requires b { IsHalf b.now }
    requires clear { AreClear a.now b.now cones.old }
    ensures outcome { IfOk result (IsHalfOutcome a.now b.now c) }
    ensures wide { IfErr result (λ e. e ≡ fail.Wide → IsHalfWide a.now b.now) }
    ensures clear { OnOk result (AreClear a.now b.now cones.new) }
{
    let mut vars = Vec::new(alloc);
    match fill(a.gates, a.root, a.names, &mut cones.a, &mut vars) {
        Ok(()) => match fill(b.gates, b.root, b.names, &mut cones.b, &mut vars) {
            Ok(()) => finish(alloc, a, b, c, cones, &vars),
            Err(e) => Err(e),
        },
        Err(e) => Err(e),
    }
}
