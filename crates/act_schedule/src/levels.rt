// The gates and the register of each level.
ghost use Rattle.std.specs.Prelude.{◌≡◌, ◌*◌, length, IfOk, OnOk};
ghost use Rattle.net_core.specs.Rows.{value};
ghost use Rattle.net_core.specs.Circuits.{Circuit, Exists, wire_at};
ghost use Rattle.net_core.specs.Building.{Extends, Keeps, Means, input_pin, input_pins};
ghost use Rattle.act_schedule.specs.Levels.{after_actions, set_of, set_where, step_of};
ghost use Rattle.act_schedule.specs.Circuits.{AddsLevels, AllExist, FollowsLevels};
ghost use Rattle.act_schedule.specs.inner.Adding.{AddsLevel, listed_below, listed_one};

use crate::plan::{LevelPlan, PlanLevel, PlanSet};
use net_core::{Builder, Wire, Wires};
use pbs_base::Memory;

/// Adds a register for each level, in order, and answers the levels' wires: 1 in each row after which the level is 1,
/// where `fires` has the wire of each action.
pub fn add_levels(b: &mut Builder, levels: &LevelPlan, fires: &Wires) -> Result<Wires, Memory>
    requires there { AllExist b.old fires.now }
    ensures circuit { IfOk result (λ wires. AddsLevels b.old b.new levels.now fires.now wires) }
    ensures runs { IfOk result (λ wires. (net : Circuit) → Keeps b.new net
        → FollowsLevels net (length b.old.registers) levels.now fires.now wires) }
{
    let alloc = b.allocator();
    let mut wires = Wires::new(alloc);
    for l in 0..levels.len() {
        let Some(level) = levels.get(l) else {
            unreachable!();
        };
        let wire = add_level(b, level, fires.as_slice())?;
        wires.push(wire)?;
    }
    Ok(wires)
}

// Adds one level with its register.
fn add_level(b: &mut Builder, level: &PlanLevel, fires: &[Wire]) -> Result<Wire, Memory>
    requires { AllExist b.old fires.now }
    ensures { IfOk result (λ wire. AddsLevel b.old b.new level.now fires.now wire) }
{
    let reg = b.register()?;
    let kept = set_gates(b, Wire::Reg(reg), Wire::Reset, level.start)?;
    let wire = all_gates(b, level.sets.as_slice(), fires, kept)?;
    b.bind_register(reg, wire);
    Ok(wire)
}

// The wire once each action was gone through.
fn all_gates(b: &mut Builder, sets: &[PlanSet], fires: &[Wire], kept: Wire) -> Result<Wire, Memory>
    requires kept { Exists b.old kept }
    requires inner { input_pin kept ≡ 0 }
    requires fires { AllExist b.old fires.now }
    ensures extends { OnOk result
        (Extends b.old b.new (2 * listed_below sets.now (length fires.now)) (input_pins fires.now)) }
    ensures means { IfOk result (λ wire. Means b.new wire (λ row.
        after_actions sets.now (λ a. value row (wire_at fires.now a)) (value row kept) (length fires.now))) }
{
    let mut wire = kept;
    for a in 0..fires.len() {
        wire = action_gates(b, sets, a, fires[a], wire)?;
    }
    Ok(wire)
}

// The wire once the action was gone through.
fn action_gates(
    b: &mut Builder,
    sets: &[PlanSet],
    action: usize,
    fire: Wire,
    wire: Wire,
) -> Result<Wire, Memory>
    requires fire { Exists b.old fire }
    requires wire { Exists b.old wire }
    requires inner { input_pin wire ≡ 0 }
    ensures extends { OnOk result (Extends b.old b.new (2 * listed_one (set_of sets.now action)) (input_pin fire)) }
    ensures means { IfOk result (λ new. Means b.new new (λ row.
        step_of (set_of sets.now action) (value row fire) (value row wire))) }
{
    match set_of(sets, action) {
        None => Ok(wire),
        Some(bit) => set_gates(b, wire, fire, bit),
    }
}

// What the list sets where the action fires.
fn set_of(sets: &[PlanSet], action: usize) -> Option<bool>
    ensures { result ≡ set_of sets.now action }
{
    for set in sets {
        if set.action as usize == action {
            return Some(set.value);
        }
    }
    None
}

// The bit where `fire` is 1, and the wire elsewhere.
fn set_gates(b: &mut Builder, wire: Wire, fire: Wire, bit: bool) -> Result<Wire, Memory>
    requires wire { Exists b.old wire }
    requires inner { input_pin wire ≡ 0 }
    requires fire { Exists b.old fire }
    ensures extends { OnOk result (Extends b.old b.new 2 (input_pin fire)) }
    ensures means { IfOk result (λ new. Means b.new new (λ row. set_where (value row fire) bit (value row wire))) }
{
    if bit {
        b.or(wire, fire)
    } else {
        let calm = b.not(fire)?;
        b.and(wire, calm)
    }
}
