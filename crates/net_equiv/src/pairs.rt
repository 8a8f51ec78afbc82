// The partners of registers, and what registers count as.
ghost use Rattle.std.specs.Prelude.{◌≡◌, ◌<◌, ◌≤◌, length, map, replicate, None, IfOk};
ghost use Rattle.std.specs.List.{range_with_len};
ghost use Rattle.net_equiv.specs.Pairing.{owner_of, partner_of, ArePairs};
ghost use Rattle.net_equiv.specs.inner.Tabling.{AreTables, AreTablesFor};
ghost use Rattle.net_equiv.specs.Cones.{a_name, b_name as b_name_of};

use crate::answer::{RegPair, VarName};
use net_core::Netlist;
use pbs_base::Memory;
use std::alloc::Global;

/// The pairs, with the partner of each register on both sides.
#[derive(Drop)]
pub(crate) struct Partners<'a> {
    pub pairs: &'a [RegPair],
    /// For each register of A that of B that it is paired with.
    pub of_a: Vec<Option<u32>>,
    /// For each register of B that of A.
    pub of_b: Vec<Option<u32>>,
}

impl<'a> Partners<'a> {
    pub(crate) fn new(
        alloc: Global,
        a: &Netlist,
        b: &Netlist,
        pairs: &'a [RegPair],
    ) -> Result<Partners<'a>, Memory>
        requires { ArePairs a.now b.now pairs.now }
        ensures tables { IfOk result (AreTablesFor a.now b.now) }
        ensures pairs { IfOk result (λ partners. partners.pairs.now ≡ pairs.now) }
    {
        let mut of_a = no_partners(alloc, a.registers().len())?;
        let mut of_b = no_partners(alloc, b.registers().len())?;
        for pair in pairs {
            of_a[pair.a as usize] = Some(pair.b);
            of_b[pair.b as usize] = Some(pair.a);
        }
        Ok(Partners { pairs, of_a, of_b })
    }

    /// The register of B that A's register `r` is paired with.
    pub(crate) fn partner(&self, r: u32) -> Option<u32>
        requires tables { AreTables self.now }
        requires within { r < length self.now.of_a.items }
        ensures { result ≡ partner_of self.now.pairs.now r }
    {
        self.of_a[r as usize]
    }

    /// The register of A that B's register `m` is paired with.
    pub(crate) fn owner(&self, m: u32) -> Option<u32>
        requires tables { AreTables self.now }
        requires within { m < length self.now.of_b.items }
        ensures { result ≡ owner_of self.now.pairs.now m }
    {
        self.of_b[m as usize]
    }
}

fn no_partners(alloc: Global, count: usize) -> Result<Vec<Option<u32>>, Memory>
    ensures { IfOk result (λ table. table.items ≡ replicate count None) }
{
    let mut table = Vec::new(alloc);
    for _ in 0..count {
        table.push(None)?;
    }
    Ok(table)
}

fn b_name(partners: &Partners, reset: bool, m: u32) -> VarName
    requires tables { AreTables partners.now }
    requires within { m < length partners.now.of_b.items }
    ensures { result ≡ b_name_of partners.now.pairs.now reset m }
{
    if reset {
        return VarName::B(m);
    }
    match partners.owner(m) {
        Some(r) => VarName::A(r),
        None => VarName::B(m),
    }
}

/// What A's registers count as.
pub(crate) fn a_names(alloc: Global, count: usize) -> Result<Vec<VarName>, Memory>
    requires { count < 4294967295 }
    ensures { IfOk result (λ names. names.items ≡ map a_name (range_with_len 0 count)) }
{
    let mut names = Vec::new(alloc);
    for r in 0..count {
        names.push(VarName::A(r as u32))?;
    }
    Ok(names)
}

/// What B's registers count as in one case.
pub(crate) fn b_names(
    alloc: Global,
    partners: &Partners,
    reset: bool,
    count: usize,
) -> Result<Vec<VarName>, Memory>
    requires few { count < 4294967295 }
    requires tables { AreTables partners.now }
    requires long { length partners.now.of_b.items ≡ count }
    ensures { IfOk result (λ names. names.items ≡ map (b_name_of partners.now.pairs.now reset) (range_with_len 0 count)) }
{
    let mut names = Vec::new(alloc);
    for m in 0..count {
        names.push(b_name(partners, reset, m as u32))?;
    }
    Ok(names)
}
