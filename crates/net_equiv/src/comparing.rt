// Two netlists compared.
ghost use Rattle.std.specs.Prelude.{◌≡◌, ◌<◌, true, false, if◌then◌else◌, length, unwrap_or, IfErr, IfOk, OnOk};
ghost use Rattle.net_equiv.specs.Pairing.{partner_of, ArePairs, SamePorts};
ghost use Rattle.net_equiv.specs.Comparing.{comparisons as comparisons_of, wire_of as wire_in};
ghost use Rattle.net_equiv.specs.Told.{IsAnswer, IsComparisonCause, IsCompareCause, IsNarrow, IsOutcome};
ghost use Rattle.net_equiv.specs.inner.Naming.{answer_by, first_told, AreAllNames, AreRoom, IsMade};
ghost use Rattle.net_equiv.specs.inner.Tabling.{AreTables, AreTablesFor};

use crate::answer::{Answer, Comparison, Difference, RegPairs, VarName};
use crate::cone::Cone;
use crate::fail::CompareFail;
use crate::halves::{Cones, Half, compare_halves};
use crate::order::comparisons;
use crate::pairs::{Partners, a_names, b_names};
use net_core::{Netlist, Wire};
use pbs_base::Memory;
use std::alloc::Global;

// The data wire of a register, or the wire that an output shows.
fn wire_of(net: &Netlist, register: bool, number: u32) -> Wire
    requires register { register ≡ true → number < length net.now.registers }
    requires output { register ≡ false → number < length net.now.outputs }
    ensures { result ≡ wire_in net.now register number }
{
    if register {
        net.registers()[number as usize]
    } else {
        Wire::Gate(net.outputs()[number as usize].gate)
    }
}

// The number of the output of B, or of its register, that is compared.
fn b_number(partners: &Partners, c: Comparison) -> u32
    requires tables { AreTables partners.now }
    requires within { c.register ≡ true → c.number < length partners.now.of_a.items }
    ensures { result ≡ (if c.register then unwrap_or (partner_of partners.now.pairs.now c.number) 0 else c.number) }
{
    if c.register {
        partners.partner(c.number).unwrap_or(0)
    } else {
        c.number
    }
}

// What registers count as: A's, and B's in each of the two cases.
#[derive(Drop)]
struct Names {
    of_a: Vec<VarName>,
    in_reset: Vec<VarName>,
    in_run: Vec<VarName>,
}

// Makes one comparison.
fn compare_one(
    alloc: Global,
    a: &Netlist,
    b: &Netlist,
    partners: &Partners,
    names: &Names,
    cones: &mut Cones,
    c: Comparison,
) -> Result<Option<Difference>, CompareFail>
    requires ports { SamePorts a.now b.now }
    requires pairs { ArePairs a.now b.now partners.now.pairs.now }
    requires tables { AreTablesFor a.now b.now partners.now }
    requires names { AreAllNames a.now b.now partners.now.pairs.now names.now }
    requires made { IsMade a.now partners.now.pairs.now c }
    requires clear { AreRoom a.now b.now cones.old }
    ensures narrow { IfOk result (λ told. IsNarrow a.now b.now partners.now.pairs.now c) }
    ensures outcome { IfOk result (IsOutcome a.now b.now partners.now.pairs.now c) }
    ensures cause { IfErr result (IsComparisonCause a.now b.now partners.now.pairs.now c) }
    ensures clear { OnOk result (AreRoom a.now b.now cones.new) }
{
    let a_half = &Half {
        gates: a.gates(),
        names: &names.of_a,
        root: wire_of(a, c.register, c.number),
    };
    let b_half = &Half {
        gates: b.gates(),
        names: names_in(c.reset, &names.in_reset, &names.in_run),
        root: wire_of(b, c.register, b_number(partners, c)),
    };
    compare_halves(alloc, a_half, b_half, cones, c)
}

// The first difference, and what one comparison more tells.
fn first_of(found: Option<Difference>, told: Option<Difference>) -> Option<Difference>
    ensures { result ≡ first_told found told }
{
    match found {
        Some(difference) => Some(difference),
        None => told,
    }
}

// What B's registers count as in the case.
fn names_in<'a>(reset: bool, in_reset: &'a [VarName], in_run: &'a [VarName]) -> &'a [VarName]
    ensures { result.now ≡ (if reset then in_reset.now else in_run.now) }
{
    if reset { in_reset } else { in_run }
}

fn answer_of(found: Option<Difference>) -> Answer
    ensures { result ≡ answer_by found }
{
    match found {
        Some(difference) => Answer::Differ(difference),
        None => Answer::Equal,
    }
}

// Makes all comparisons.
fn compare_all(
    alloc: Global,
    a: &Netlist,
    b: &Netlist,
    partners: &Partners,
    order: &[Comparison],
    names: &Names,
    cones: &mut Cones,
) -> Result<Answer, CompareFail>
    requires ports { SamePorts a.now b.now }
    requires pairs { ArePairs a.now b.now partners.now.pairs.now }
    requires tables { AreTablesFor a.now b.now partners.now }
    requires order { order.now ≡ comparisons_of a.now partners.now.pairs.now }
    requires names { AreAllNames a.now b.now partners.now.pairs.now names.now }
    requires clear { AreRoom a.now b.now cones.old }
    ensures answer { IfOk result (IsAnswer a.now b.now partners.now.pairs.now) }
    ensures cause { IfErr result (IsCompareCause a.now b.now partners.now.pairs.now) }
{
    let mut found = None;
    for c in order {
        match compare_one(alloc, a, b, partners, names, cones, *c) {
            Ok(told) => found = first_of(found, told),
            Err(e) => return Err(e),
        }
    }
    Ok(answer_of(found))
}

fn names_of(alloc: Global, a: &Netlist, b: &Netlist, partners: &Partners) -> Result<Names, Memory>
    requires { AreTablesFor a.now b.now partners.now }
    ensures { IfOk result (AreAllNames a.now b.now partners.now.pairs.now) }
{
    // For the proof alone: how many registers there may be is known where the netlists are read.
    let _ = a.gates();
    let _ = b.gates();
    Ok(Names {
        of_a: a_names(alloc, a.registers().len())?,
        in_reset: b_names(alloc, partners, true, b.registers().len())?,
        in_run: b_names(alloc, partners, false, b.registers().len())?,
    })
}

fn room_for(alloc: Global, a: &Netlist, b: &Netlist) -> Result<Cones, Memory>
    ensures { IfOk result (AreRoom a.now b.now) }
{
    Ok(Cones {
        a: Cone::new(alloc, a.gates().len())?,
        b: Cone::new(alloc, b.gates().len())?,
    })
}

/// Compares two netlists: the first comparison whose sides differ, with the least vector that makes them differ.
/// `Wide` exactly where some comparison has more than 16 variables.
pub fn compare(
    alloc: Global,
    a: &Netlist,
    b: &Netlist,
    pairs: &RegPairs,
) -> Result<Answer, CompareFail>
    requires ports { SamePorts a.now b.now }
    requires pairs { ArePairs a.now b.now pairs.now }
    ensures answer { IfOk result (IsAnswer a.now b.now pairs.now) }
    ensures cause { IfErr result (IsCompareCause a.now b.now pairs.now) }
{
    let partners = &Partners::new(alloc, a, b, pairs.as_slice())?;
    let order = comparisons(alloc, a, partners)?;
    let names = names_of(alloc, a, b, partners)?;
    let mut cones = room_for(alloc, a, b)?;
    compare_all(alloc, a, b, partners, &order, &names, &mut cones)
}
