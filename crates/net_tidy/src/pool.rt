// Gates that grow, of which those of equal form are shared.
ghost use Rattle.std.specs.Prelude.{◌≡◌, ◌⊎◌, ℕ, [], ◌∷◌, ◌++◌, length, not, None, Some};
ghost use Rattle.std.specs.Prelude.{IfNone, IfOk, IfSome, IsTrue, OnOk};
ghost use Rattle.net_tidy.specs.declared.form.Joint.{Joint as JointItem};
ghost use Rattle.net_core.specs.declared.gate.Wire.{Wire as WireItem};
ghost use Rattle.net_core.specs.Rows.{Row, IsRow, value, output_of};
ghost use Rattle.net_core.specs.Circuits.{HasItsPins, IsBuilt, IsPlain, IsThere};
ghost use Rattle.net_core.specs.declared.gate.Wire.TheVariants as wire;
ghost use Rattle.net_tidy.specs.Forms.{form_at, form_kind, form_of, form_pins, form_value, joined, IsTight};
ghost use Rattle.net_tidy.specs.inner.Made.{AllFit, HasNeatForms, Makes};
ghost use Rattle.net_tidy.specs.declared.form.Form.TheVariants.{Not, Join};

use crate::form::{
    Form, Joint, form_of, gate_of, is_among, is_same, is_same_joint, joined_constant, joint_unit,
};
use crate::key::{Key, forget, number_of, remember};
use net_core::{Gate, GateKind, Gates, Pins, Wire};
use pbs_base::Memory;
use std::alloc::Global;
use std::collections::BTreeMap;
use std::marker::Model;

/// The most gates. A call that would pass it answers `Memory`.
const MOST: usize = 4_294_967_294;

/// Gates that grow. No two plain gates are equal, and none reads a constant.
#[derive(Drop)]
pub(crate) struct Pool {
    gates: Gates,
    known: BTreeMap<Key, u32>,
    alloc: Global,
}

impl Model for Pool {
    ghost use Rattle.std.specs.Prelude.{List};
    ghost use Rattle.std.specs.BTreeMap.{get};
    ghost use Rattle.net_tidy.specs.Keys.{form_key, key_cmp};
    ghost use Rattle.net_core.specs.declared.gate.Gate as gate;
    ghost use Rattle.net_tidy.specs.Pools.{IsPool};

    ghost Value = { List gate.Gate };

    ghost view = { λ p. p.gates };

    ghost invariant = { λ p. IsPool p.gates (λ f. get key_cmp p.known (form_key f)) };
}

impl Pool {
    pub(crate) fn new(alloc: Global) -> Pool
        ensures { result ≡ [] }
    {
        Pool {
            gates: Gates::new(alloc),
            known: BTreeMap::new(alloc),
            alloc,
        }
    }

    /// The gates.
    pub(crate) fn finish(self) -> Gates
        ensures gates { result ≡ self }
        ensures neat { HasNeatForms result }
    {
        self.gates
    }

    // The form of the wire's gate.
    fn form_at(&self, wire: Wire) -> Option<Form>
        ensures { result ≡ form_at self.now wire }
    {
        let Wire::Gate(n) = wire else {
            return None;
        };
        match self.gates.get(n as usize) {
            Some(gate) => form_of(gate.kind, gate.pins.as_slice()),
            None => None,
        }
    }

    // Whether the first wire is the `not` of the second.
    fn negates(&self, a: Wire, b: Wire) -> bool
        ensures { IsTrue result → form_at self.now a ≡ Some (Not b) }
    {
        match self.form_at(a) {
            Some(Form::Not(inner)) => is_same(inner, b),
            _ => false,
        }
    }

    // The join of a wire and one that it is made of.
    fn absorbed(&self, j: Joint, a: Wire, b: Wire) -> Option<Wire>
        ensures meaning { IfSome result (λ w. (row : Row) → IsRow self.now row
            → value row w ≡ joined j (value row a) (value row b)) }
        ensures there { IfSome result (λ w. (i r n : ℕ) → IsThere i r n a → IsThere i r n b → IsThere i r n w) }
    {
        match self.form_at(a) {
            Some(Form::Join(k, first, second)) => {
                if !is_among(first, second, b) {
                    return None;
                }
                if is_same_joint(j, k) {
                    Some(a)
                } else {
                    Some(b)
                }
            }
            _ => None,
        }
    }

    // The join of wires of which one is the `not` of the other, or is made of the other.
    fn related(&self, j: Joint, a: Wire, b: Wire) -> Option<Wire>
        ensures meaning { IfSome result (λ w. (row : Row) → IsRow self.now row
            → value row w ≡ joined j (value row a) (value row b)) }
        ensures there { IfSome result (λ w. (i r n : ℕ) → IsThere i r n a → IsThere i r n b → IsThere i r n w) }
    {
        if self.negates(a, b) {
            return Some(Wire::Const(!joint_unit(j)));
        }
        self.absorbed(j, a, b)
    }

    // The join of the two wires, where it needs no gate.
    fn settled(&self, j: Joint, a: Wire, b: Wire) -> Option<Wire>
        ensures meaning { IfSome result (λ w. (row : Row) → IsRow self.now row
            → value row w ≡ joined j (value row a) (value row b)) }
        ensures there { IfSome result (λ w. (i r n : ℕ) → IsThere i r n a → IsThere i r n b → IsThere i r n w) }
        ensures tight { IfNone result (IsTight (Join j a b)) }
    {
        if let Some(wire) = joined_constant(j, a, b) {
            return Some(wire);
        }
        if let Some(wire) = joined_constant(j, b, a) {
            return Some(wire);
        }
        if is_same(a, b) {
            return Some(a);
        }
        if let Some(wire) = self.related(j, a, b) {
            return Some(wire);
        }
        self.related(j, b, a)
    }

    // The gate of the form.
    fn find(&self, form: Form) -> Option<u32>
        ensures found { IfSome result (λ n. form_at self.now (wire.Gate n) ≡ Some form) }
        ensures absent { IfNone result ((n : ℕ) → form_at self.now (wire.Gate n) ≡ Some form → ⊥) }
    {
        number_of(&self.known, form)
    }

    // Adds the gate of the form.
    fn push_form(&mut self, form: Form) -> Result<Wire, Memory>
        requires tight { IsTight form }
        requires absent { (n : ℕ) → form_at self.old (wire.Gate n) ≡ Some form → ⊥ }
        requires fresh { (j : JointItem) (a b : WireItem) → form ≡ Join j a b → (n : ℕ)
            → form_at self.old (wire.Gate n) ≡ Some (Join j b a) → ⊥ }
        ensures made { IfOk result (λ made. made ≡ wire.Gate (length self.old)) }
        ensures gate { OnOk result
            (self.new ≡ self.old ++ (record { kind = form_kind form; pins = form_pins form }) ∷ []) }
    {
        let number = self.gates.len();
        if number >= MOST {
            return Err(Memory);
        }
        let gate = gate_of(self.alloc, form)?;
        remember(&mut self.known, form, number as u32)?;
        match self.gates.push(gate) {
            Ok(()) => Ok(Wire::Gate(number as u32)),
            Err(Memory) => {
                forget(&mut self.known, form);
                Err(Memory)
            }
        }
    }

    // Adds a gate that has no form.
    fn push_other(&mut self, kind: GateKind, pins: Pins) -> Result<Wire, Memory>
        requires pins { HasItsPins kind (length pins) }
        requires formless { form_of kind pins ≡ None }
        ensures { IfOk result (λ made. Makes self.old self.new pins made (λ row. output_of row kind pins)) }
    {
        let number = self.gates.len();
        if number >= MOST {
            return Err(Memory);
        }
        self.gates.push(Gate { kind, pins })?;
        Ok(Wire::Gate(number as u32))
    }

    // The gate of the form, which is added where it isn't there.
    fn share(&mut self, form: Form) -> Result<Wire, Memory>
        requires tight { IsTight form }
        requires fresh { (j : JointItem) (a b : WireItem) → form ≡ Join j a b → (n : ℕ)
            → form_at self.old (wire.Gate n) ≡ Some (Join j b a) → ⊥ }
        ensures makes { IfOk result (λ made.
            Makes self.old self.new (form_pins form) made (λ row. form_value row form)) }
        ensures built { OnOk result (IsBuilt self.old → IsBuilt self.new) }
    {
        match self.find(form) {
            Some(number) => Ok(Wire::Gate(number)),
            None => self.push_form(form),
        }
    }

    fn negate(&mut self, a: Wire) -> Result<Wire, Memory>
        ensures makes { IfOk result (λ made. Makes self.old self.new (a ∷ []) made (λ row. not (value row a))) }
        ensures built { OnOk result (IsBuilt self.old → IsBuilt self.new) }
    {
        if let Wire::Const(value) = a {
            return Ok(Wire::Const(!value));
        }
        match self.form_at(a) {
            Some(Form::Not(inner)) => Ok(inner),
            _ => self.share(Form::Not(a)),
        }
    }

    fn join_reduced(&mut self, j: Joint, a: Wire, b: Wire) -> Result<Wire, Memory>
        ensures makes { IfOk result (λ made.
            Makes self.old self.new (a ∷ b ∷ []) made (λ row. joined j (value row a) (value row b))) }
        ensures built { OnOk result (IsBuilt self.old → IsBuilt self.new) }
    {
        if let Some(wire) = self.settled(j, a, b) {
            return Ok(wire);
        }
        match self.find(Form::Join(j, b, a)) {
            Some(number) => Ok(Wire::Gate(number)),
            None => self.share(Form::Join(j, a, b)),
        }
    }

    // Whether the two wires have opposite values in every row.
    fn are_opposite(&self, a: Wire, b: Wire) -> bool
        ensures { IsTrue result → (row : Row) → IsRow self.now row → value row a ≡ not (value row b) }
    {
        self.negates(a, b) || self.negates(b, a)
    }

    // Of two wires that are joined the one that is not the opposite of the third, and else the given one.
    fn left_over(&self, whole: Wire, first: Wire, second: Wire, b: Wire) -> Wire
        ensures { ((result ≡ second) × ((row : Row) → IsRow self.now row → value row first ≡ not (value row b)))
            ⊎ (((result ≡ first) × ((row : Row) → IsRow self.now row → value row second ≡ not (value row b)))
            ⊎ (result ≡ whole)) }
    {
        if self.are_opposite(first, b) {
            second
        } else if self.are_opposite(second, b) {
            first
        } else {
            whole
        }
    }

    // What the first wire may be replaced by where it is joined with the second: for `~b | c` and `b`, joined by `and`,
    // this is `c`.
    fn reduced(&self, j: Joint, a: Wire, b: Wire) -> Wire
        ensures meaning { (row : Row) → IsRow self.now row
            → joined j (value row result) (value row b) ≡ joined j (value row a) (value row b) }
        ensures there { (i r : ℕ) → AllFit i r self.now → IsThere i r (length self.now) a
            → IsThere i r (length self.now) result }
    {
        match self.form_at(a) {
            Some(Form::Join(k, first, second)) => {
                if is_same_joint(j, k) {
                    return a;
                }
                self.left_over(a, first, second, b)
            }
            _ => a,
        }
    }

    fn join(&mut self, j: Joint, a: Wire, b: Wire) -> Result<Wire, Memory>
        ensures makes { IfOk result (λ made.
            Makes self.old self.new (a ∷ b ∷ []) made (λ row. joined j (value row a) (value row b))) }
        ensures built { OnOk result (IsBuilt self.old → IsBuilt self.new) }
    {
        let first = self.reduced(j, a, b);
        let second = self.reduced(j, b, first);
        self.join_reduced(j, first, second)
    }

    fn add_form(&mut self, form: Form) -> Result<Wire, Memory>
        ensures makes { IfOk result (λ made.
            Makes self.old self.new (form_pins form) made (λ row. form_value row form)) }
        ensures built { OnOk result (IsBuilt self.old → IsBuilt self.new) }
    {
        match form {
            Form::Same(a) => Ok(a),
            Form::Not(a) => self.negate(a),
            Form::Join(j, a, b) => self.join(j, a, b),
        }
    }

    /// A wire that is what a gate of this kind makes of the pins. At most one gate is added.
    pub(crate) fn add(&mut self, kind: GateKind, pins: Pins) -> Result<Wire, Memory>
        requires { HasItsPins kind (length pins) }
        ensures makes { IfOk result (λ made. Makes self.old self.new pins made (λ row. output_of row kind pins)) }
        ensures built { OnOk result
            (IsBuilt self.old → IsPlain (record { kind = kind; pins = pins }) → IsBuilt self.new) }
    {
        match form_of(kind, pins.as_slice()) {
            Some(form) => self.add_form(form),
            None => self.push_other(kind, pins),
        }
    }
}
