// The gates of a scope. The position at which its trap ends is the abort: it wins over an end of the body, discards
// what goes on in the body, and begins the after part.
ghost use Rattle.std.specs.Prelude.{◌≡◌, ◌+◌, ◌*◌, ◌≤◌, ◌&&◌, ◌||◌, not, IfOk, OnOk};
ghost use Rattle.net_core.specs.Rows.{Row, value};
ghost use Rattle.net_core.specs.Circuits.{Exists};
ghost use Rattle.net_core.specs.Building.{Extends, Means, input_pin};
ghost use Rattle.frag_scopes.specs.Aborts.{ends_after_abort, stays_after_abort};

use net_core::{Builder, Wire};
use pbs_base::Memory;

/// What a node tells the nodes above it: whether a derivation of it that began in an earlier row ends in this row, and
/// whether one stands before a terminal in this row.
#[derive(Clone, Copy)]
pub struct Up {
    pub ends: Wire,
    pub stays: Wire,
}

/// What a scope tells its parts: where the after part starts, and where the body and the trap are kept.
#[derive(Clone, Copy)]
pub struct Down {
    pub after_start: Wire,
    pub body_keep: Wire,
    pub trap_keep: Wire,
}

/// The wire, or 0 where the flag is down.
pub fn when(b: &Builder, wire: Wire, flag: bool) -> Wire
    requires { Exists b.now wire }
    ensures value { (row : Row) → value row result ≡ (value row wire && flag) }
    ensures there { Exists b.now result }
    ensures pins { input_pin result ≤ input_pin wire }
{
    if flag { wire } else { Wire::Const(false) }
}

/// What a scope tells the nodes above it, from what its parts tell. The flags say whether the after part may be empty
/// and whether it has a terminal.
pub fn abort_up(
    b: &mut Builder,
    body: Up,
    trap: Up,
    after: Up,
    after_empty: bool,
    after_terminal: bool,
) -> Result<Up, Memory>
    requires body_ends { Exists b.old body.ends }
    requires body_stays { Exists b.old body.stays }
    requires trap { Exists b.old trap.ends }
    requires after_ends { Exists b.old after.ends }
    requires after_stays { Exists b.old after.stays }
    ensures extends { OnOk result (Extends b.old b.new 7
        (input_pin body.ends + input_pin body.stays + 3 * input_pin trap.ends
        + input_pin after.ends + input_pin after.stays)) }
    ensures ends { IfOk result (λ up. Means b.new up.ends (λ row.
        ends_after_abort (value row body.ends) (value row trap.ends) (value row after.ends) after_empty)) }
    ensures stays { IfOk result (λ up. Means b.new up.stays (λ row.
        stays_after_abort (value row body.stays) (value row trap.ends) (value row after.stays) after_terminal)) }
{
    let calm = b.not(trap.ends)?;
    let to_after = when(b, trap.ends, after_empty);
    let into_after = when(b, trap.ends, after_terminal);
    let ends = unless_aborted(b, body.ends, calm, after.ends, to_after)?;
    let stays = unless_aborted(b, body.stays, calm, after.stays, into_after)?;
    Ok(Up { ends, stays })
}

// What the body tells where it is calm, or what the after part or the abort tells.
fn unless_aborted(
    b: &mut Builder,
    body: Wire,
    calm: Wire,
    after: Wire,
    abort: Wire,
) -> Result<Wire, Memory>
    requires body { Exists b.old body }
    requires calm { Exists b.old calm }
    requires after { Exists b.old after }
    requires abort { Exists b.old abort }
    ensures extends { OnOk result
        (Extends b.old b.new 3 (input_pin body + input_pin calm + input_pin after + input_pin abort)) }
    ensures means { IfOk result (λ wire. Means b.new wire (λ row.
        (value row body && value row calm) || (value row after || value row abort))) }
{
    let from_body = b.and(body, calm)?;
    let from_after = b.or(after, abort)?;
    b.or(from_body, from_after)
}

/// What a scope's parts are given, from the scope's own keep wire.
pub fn abort_down(b: &mut Builder, keep: Wire, body: Up, trap: Up) -> Result<Down, Memory>
    requires keep { Exists b.old keep }
    requires body { Exists b.old body.stays }
    requires trap { Exists b.old trap.ends }
    ensures extends { OnOk result
        (Extends b.old b.new 4 (2 * input_pin trap.ends + 2 * input_pin keep + input_pin body.stays)) }
    ensures after { IfOk result (λ down. Means b.new down.after_start (λ row.
        value row trap.ends && value row keep)) }
    ensures body { IfOk result (λ down. Means b.new down.body_keep (λ row.
        value row keep && not (value row trap.ends))) }
    ensures trap { IfOk result (λ down. Means b.new down.trap_keep (λ row.
        (value row keep && not (value row trap.ends)) && value row body.stays)) }
{
    let after_start = b.and(trap.ends, keep)?;
    let calm = b.not(trap.ends)?;
    let body_keep = b.and(keep, calm)?;
    let trap_keep = b.and(body_keep, body.stays)?;
    Ok(Down {
        after_start,
        body_keep,
        trap_keep,
    })
}
