//! Boolean terms over one-bit inputs.
#![tactic(auto)]

ghost use Rattle.std.specs.Prelude.{◌≡◌, IfOk, IsTrue};
ghost use Rattle.bool_terms.specs.Terms.{holds, term_of, term_inputs_below, input_set, IsInputSet};

use pbs_base::Memory;
use std::alloc::Global;

/// A Boolean term over the bits of a vector. `Input(n)` is bit n.
#[derive(Drop)]
pub enum Term {
    Const(bool),
    Input(u8),
    Not(Box<Term>),
    And(Box<Term>, Box<Term>),
    Or(Box<Term>, Box<Term>),
}

impl Term {
    /// Whether the term is true in the vector `v`.
    pub fn holds(&self, v: u64) -> bool
        requires { IsTrue (term_inputs_below 64 (term_of self.now)) }
        ensures { result ≡ holds (term_of self.now) v }
    {
        match self {
            Term::Const(value) => *value,
            Term::Input(n) => v >> *n & 1 == 1,
            Term::Not(inner) => !inner.holds(v),
            Term::And(left, right) => left.holds(v) && right.holds(v),
            Term::Or(left, right) => left.holds(v) || right.holds(v),
        }
    }

    /// The set of the term's inputs, as the bits of a number: bit n is 1 exactly where input n stands in the term.
    #[tactic(auto, using(crate::proofs::InputSets::input_set_one, crate::proofs::InputSets::input_set_and, crate::proofs::InputSets::input_set_or))]
    pub fn inputs(&self) -> u64
        requires { IsTrue (term_inputs_below 64 (term_of self.now)) }
        ensures exact { IsInputSet (term_of self.now) result }
        ensures set { result ≡ input_set (term_of self.now) }
    {
        match self {
            Term::Const(_) => 0,
            Term::Input(n) => 1 << *n,
            Term::Not(inner) => inner.inputs(),
            Term::And(left, right) => left.inputs() | right.inputs(),
            Term::Or(left, right) => left.inputs() | right.inputs(),
        }
    }

    /// The same term again.
    pub fn copy(&self, alloc: Global) -> Result<Term, Memory>
        ensures { IfOk result (λ copy. term_of copy ≡ term_of self.now) }
    {
        match self {
            Term::Const(value) => Ok(Term::Const(*value)),
            Term::Input(n) => Ok(Term::Input(*n)),
            Term::Not(inner) => {
                let inner = inner.copy(alloc)?;
                Ok(Term::Not(Box::new(alloc, inner)?))
            }
            Term::And(left, right) => {
                let left = left.copy(alloc)?;
                let right = right.copy(alloc)?;
                Ok(Term::And(Box::new(alloc, left)?, Box::new(alloc, right)?))
            }
            Term::Or(left, right) => {
                let left = left.copy(alloc)?;
                let right = right.copy(alloc)?;
                Ok(Term::Or(Box::new(alloc, left)?, Box::new(alloc, right)?))
            }
        }
    }
}
