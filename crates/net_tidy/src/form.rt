// What a plain gate makes of its pins.
ghost use Rattle.std.specs.Prelude.{◌≡◌, IfOk, IfSome, IfNone, IsTrue, ℕ, ◌⊎◌};
ghost use Rattle.net_core.specs.Rows.{Row, value};
ghost use Rattle.net_core.specs.Circuits.{IsThere};
ghost use Rattle.net_tidy.specs.Forms.{form_kind, form_of, form_of_one, form_of_two, form_pins};
ghost use Rattle.net_tidy.specs.Forms.{joint_kind, joined, joint_unit, IsConst};

use net_core::{Gate, GateKind, Pins, Wire};
use pbs_base::Memory;
use std::alloc::Global;

/// What joins two wires: `and` or `or`.
#[derive(Clone, Copy, PartialEq, Eq)]
pub(crate) enum Joint {
    All,
    Any,
}

/// A wire itself, its negation, or two wires joined.
#[derive(Clone, Copy)]
pub(crate) enum Form {
    Same(Wire),
    Not(Wire),
    Join(Joint, Wire, Wire),
}

// The form of a gate of this kind with these pins, `None` where it has none of the three.
pub(crate) fn form_of(kind: GateKind, pins: &[Wire]) -> Option<Form>
    ensures { result ≡ form_of kind pins.now }
{
    match pins {
        [a] => form_of_one(kind, *a),
        [a, b] => form_of_two(kind, *a, *b),
        _ => None,
    }
}

fn form_of_one(kind: GateKind, pin: Wire) -> Option<Form>
    ensures { result ≡ form_of_one kind pin }
{
    match kind {
        GateKind::Buf | GateKind::And | GateKind::Or => Some(Form::Same(pin)),
        GateKind::Not => Some(Form::Not(pin)),
        _ => None,
    }
}

fn form_of_two(kind: GateKind, first: Wire, second: Wire) -> Option<Form>
    ensures { result ≡ form_of_two kind first second }
{
    match kind {
        GateKind::And => Some(Form::Join(Joint::All, first, second)),
        GateKind::Or => Some(Form::Join(Joint::Any, first, second)),
        _ => None,
    }
}

// The gate of a form.
pub(crate) fn gate_of(alloc: Global, form: Form) -> Result<Gate, Memory>
    ensures kind { IfOk result (λ g. g.kind ≡ form_kind form) }
    ensures pins { IfOk result (λ g. g.pins ≡ form_pins form) }
{
    let mut pins = Pins::new(alloc);
    let kind = match form {
        Form::Same(a) => {
            pins.push(a)?;
            GateKind::Buf
        }
        Form::Not(a) => {
            pins.push(a)?;
            GateKind::Not
        }
        Form::Join(j, a, b) => {
            pins.push(a)?;
            pins.push(b)?;
            joint_kind(j)
        }
    };
    Ok(Gate { kind, pins })
}

fn joint_kind(j: Joint) -> GateKind
    ensures { result ≡ joint_kind j }
{
    match j {
        Joint::All => GateKind::And,
        Joint::Any => GateKind::Or,
    }
}

// The value with which a join is the other wire.
pub(crate) fn joint_unit(j: Joint) -> bool
    ensures { result ≡ joint_unit j }
{
    match j {
        Joint::All => true,
        Joint::Any => false,
    }
}

// Whether the two wires are one.
pub(crate) fn is_same(a: Wire, b: Wire) -> bool
    ensures yes { IsTrue result → a ≡ b }
    ensures no { a ≡ b → IsTrue result }
{
    a == b
}

// Whether one of the two wires is the third.
pub(crate) fn is_among(first: Wire, second: Wire, wire: Wire) -> bool
    ensures { IsTrue result → (first ≡ wire) ⊎ (second ≡ wire) }
{
    is_same(first, wire) || is_same(second, wire)
}

// Whether the two join alike.
pub(crate) fn is_same_joint(a: Joint, b: Joint) -> bool
    ensures yes { IsTrue result → a ≡ b }
    ensures no { a ≡ b → IsTrue result }
{
    a == b
}

// The join of a constant and another wire.
pub(crate) fn joined_constant(j: Joint, a: Wire, b: Wire) -> Option<Wire>
    ensures meaning { IfSome result (λ w. (row : Row) → value row w ≡ joined j (value row a) (value row b)) }
    ensures there { IfSome result (λ w. (i r n : ℕ) → IsThere i r n a → IsThere i r n b → IsThere i r n w) }
    ensures none { IfNone result (IsConst a → ⊥) }
{
    match a {
        Wire::Const(value) => {
            if value == joint_unit(j) {
                Some(b)
            } else {
                Some(a)
            }
        }
        _ => None,
    }
}
