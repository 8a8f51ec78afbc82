// A table of gates by their forms.
ghost use Rattle.std.specs.Prelude.{◌≡◌, None, OnErr, OnOk, Some, cond};
ghost use Rattle.std.specs.BTreeMap.{get};
ghost use Rattle.net_tidy.specs.declared.form.Form.{Form as FormItem};
ghost use Rattle.net_tidy.specs.Keys.{form_eq, form_key, key_cmp, wire_number};

use crate::form::{Form, Joint};
use net_core::Wire;
use pbs_base::Memory;
use std::collections::BTreeMap;

/// The form of a gate as numbers, which have an order.
#[derive(Clone, Copy, PartialEq, Eq, PartialOrd, Ord)]
pub(crate) struct Key {
    kind: u8,
    first: u64,
    second: u64,
}

// A number of its own for each wire.
fn wire_number(wire: Wire) -> u64
    ensures { result ≡ wire_number wire }
{
    match wire {
        Wire::Const(false) => 0,
        Wire::Const(true) => 1,
        Wire::Reset => 2,
        Wire::Input(n) => 3 * n as u64 + 3,
        Wire::Reg(n) => 3 * n as u64 + 4,
        Wire::Gate(n) => 3 * n as u64 + 5,
    }
}

fn form_key(form: Form) -> Key
    ensures { result ≡ form_key form }
{
    let (kind, first, second) = match form {
        Form::Same(a) => (0, wire_number(a), 0),
        Form::Not(a) => (1, wire_number(a), 0),
        Form::Join(Joint::All, a, b) => (2, wire_number(a), wire_number(b)),
        Form::Join(Joint::Any, a, b) => (3, wire_number(a), wire_number(b)),
    };
    Key {
        kind,
        first,
        second,
    }
}

// The number of the gate of the form.
pub(crate) fn number_of(known: &BTreeMap<Key, u32>, form: Form) -> Option<u32>
    ensures { result ≡ get key_cmp known.now (form_key form) }
{
    known.get(&form_key(form)).copied()
}

// On `Memory` the table stays as it was.
pub(crate) fn remember(
    known: &mut BTreeMap<Key, u32>,
    form: Form,
    number: u32,
) -> Result<(), Memory>
    ensures ok { OnOk result ((f : FormItem) → get key_cmp known.new (form_key f)
        ≡ cond (form_eq form f) (Some number) (get key_cmp known.old (form_key f))) }
    ensures err { OnErr result ((f : FormItem)
        → get key_cmp known.new (form_key f) ≡ get key_cmp known.old (form_key f)) }
{
    known.insert(form_key(form), number)?;
    Ok(())
}

pub(crate) fn forget(known: &mut BTreeMap<Key, u32>, form: Form)
    ensures { (f : FormItem) → get key_cmp known.new (form_key f)
        ≡ cond (form_eq form f) None (get key_cmp known.old (form_key f)) }
{
    known.remove(&form_key(form));
}
