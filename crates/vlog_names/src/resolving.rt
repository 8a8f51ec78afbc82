// What the names of a raw netlist stand for.
ghost use Rattle.std.specs.Prelude.{◌≡◌, ◌<◌, None, Some, map, length, IfOk};
ghost use Rattle.vlog_text.specs.declared.raw.RawGate.{RawGate as GateItem};
ghost use Rattle.vlog_text.specs.declared.raw.RawReg.{RawReg as RegItem};
ghost use Rattle.vlog_text.specs.Words.{target_name};
ghost use Rattle.vlog_text.specs.Refusing.{earliest, refusals, rule_4, rule_5, rule_7, rule_8};
ghost use Rattle.vlog_names.specs.Names.{IsFirsts, KnowsKinds};
ghost use Rattle.vlog_names.specs.Numbers.{AreNumbers};

use crate::checks::{check_clock, check_counts};
use crate::driving::{Driving, check_drivers};
use crate::kinds::KindTable;
use crate::naming::check_names;
use crate::numbers::{number_inputs, number_registers};
use crate::wires::Numbers;
use pbs_base::{Memory, Refusal};
use std::alloc::Global;
use vlog_text::RawNetlist;

/// What names stand for, and where rules 4, 5, 7 and 8 are broken first.
#[derive(Drop)]
pub struct Resolved {
    pub numbers: Numbers,
    pub by_name: Option<Refusal>,
    pub by_driver: Option<Refusal>,
    pub by_clock: Option<Refusal>,
    pub by_count: Option<Refusal>,
}

fn number_names(
    alloc: Global,
    raw: &RawNetlist,
    kinds: KindTable,
    driving: Driving,
) -> Result<Numbers, Memory>
    requires kinds { KnowsKinds raw.now.decls kinds }
    requires gates { IsFirsts (map (λ (g : GateItem). target_name g.target) raw.now.gates) driving.gates }
    requires regs { IsFirsts (map (λ (r : RegItem). Some r.target) raw.now.regs) driving.regs }
    requires few { length raw.now.gates < 4294967295 }
    ensures { IfOk result (λ numbers. AreNumbers raw.now numbers) }
{
    let inputs = number_inputs(alloc, &kinds, raw.ports.as_slice())?;
    let registers = number_registers(alloc, raw.decls.as_slice())?;
    Ok(Numbers {
        kinds,
        inputs,
        registers,
        gates: driving.gates,
        regs: driving.regs,
    })
}

/// What the names of the raw netlist stand for. Where a rule is broken it means nothing.
pub fn resolve(alloc: Global, raw: &RawNetlist) -> Result<Resolved, Memory>
    requires { length raw.now.gates < 4294967295 }
    ensures numbers { IfOk result (λ r. AreNumbers raw.now r.numbers) }
    ensures by_name { IfOk result (λ r. r.by_name ≡ earliest None (refusals 4 (rule_4 raw.now))) }
    ensures by_driver { IfOk result (λ r. r.by_driver ≡ earliest None (refusals 5 (rule_5 raw.now))) }
    ensures by_clock { IfOk result (λ r. r.by_clock ≡ earliest None (refusals 7 (rule_7 raw.now))) }
    ensures by_count { IfOk result (λ r. r.by_count ≡ earliest None (refusals 8 (rule_8 raw.now))) }
{
    let naming = check_names(alloc, raw)?;
    let by_clock = check_clock(alloc, raw, &naming.kinds)?;
    let driving = check_drivers(alloc, raw, &naming.kinds)?;
    let by_driver = driving.found;
    let numbers = number_names(alloc, raw, naming.kinds, driving)?;
    Ok(Resolved {
        numbers,
        by_name: naming.found,
        by_driver,
        by_clock,
        by_count: check_counts(raw),
    })
}
