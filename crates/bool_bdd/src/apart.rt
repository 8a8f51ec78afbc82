// Whether two nodes are disjoint, by a walk over pairs of nodes.
ghost use Rattle.std.specs.Prelude.{◌≡◌, ◌↔◌, ◌<◌, ◌≤◌, IsTrue, IfOk, OnOk, None, true, if◌then◌else◌};
ghost use Rattle.std.specs.HashSet.{contains};
ghost use Rattle.bool_bdd.specs.declared.node.Pair.{Pair};
ghost use Rattle.bool_bdd.specs.Diagrams.{AreDisjoint, IsDiagram, IsNode};
ghost use Rattle.bool_bdd.specs.Members.{pair_eq};
ghost use Rattle.bool_bdd.specs.inner.Pairs.{halves_of, pair_first, settled_by, AllDisjoint, IsPair};

use crate::node::{Node, Pair};
use crate::store::Store;
use pbs_base::Memory;
use std::alloc::Global;
use std::collections::HashSet;

impl Store {
    /// Whether no vector satisfies both nodes. The time is bounded by the product of the numbers of their branches.
    pub fn disjoint(&self, alloc: Global, a: Node, b: Node) -> Result<bool, Memory>
        requires first { IsNode self.now a }
        requires second { IsNode self.now b }
        ensures { IfOk result (λ apart. IsTrue apart ↔ AreDisjoint self.now a b) }
    {
        let mut apart = HashSet::new(alloc);
        self.walk(&mut apart, Pair { left: a, right: b })
    }

    // The same, where the pairs of the set are known to be disjoint. Those that are found to be go into the set.
    fn walk(&self, apart: &mut HashSet<Pair>, pair: Pair) -> Result<bool, Memory>
        requires pair { IsPair self.now pair }
        requires apart { AllDisjoint self.now (contains pair_eq apart.old) }
        ensures apart { OnOk result (AllDisjoint self.now (contains pair_eq apart.new)) }
        ensures exact { IfOk result (λ answer. IsTrue answer ↔ AreDisjoint self.now pair.left pair.right) }
    {
        if let Some(answer) = settled(pair) {
            return Ok(answer);
        }
        if apart.contains(&pair) {
            return Ok(true);
        }
        let variable = self.first_of_pair(pair);
        match self.walk(apart, self.halves(variable, false, pair)) {
            Ok(true) => match self.walk(apart, self.halves(variable, true, pair)) {
                Ok(true) => note(apart, pair),
                Ok(false) => Ok(false),
                Err(Memory) => Err(Memory),
            },
            Ok(false) => Ok(false),
            Err(Memory) => Err(Memory),
        }
    }

    // The first input that the pair depends on.
    fn first_of_pair(&self, pair: Pair) -> u8
        requires { IsPair self.now pair }
        ensures value { result ≡ pair_first self.now pair }
        ensures diagram { IsDiagram self.now }
        ensures open { settled_by pair.left pair.right ≡ None → result < 64 }
    {
        self.level(pair.left).min(self.level(pair.right))
    }

    // The pair where the input has this value.
    fn halves(&self, variable: u8, value: bool, pair: Pair) -> Pair
        requires pair { IsPair self.now pair }
        requires first { variable ≤ pair_first self.now pair }
        requires variable { variable < 64 }
        ensures value { result ≡ halves_of self.now variable value pair }
        ensures pair { IsPair self.now result }
        ensures later { variable < pair_first self.now result }
    {
        Pair {
            left: self.side(variable, value, pair.left),
            right: self.side(variable, value, pair.right),
        }
    }
}

// Whether the two are disjoint, where constants tell.
fn settled(pair: Pair) -> Option<bool>
    ensures { result ≡ settled_by pair.left pair.right }
{
    match (pair.left, pair.right) {
        (Node::Leaf(false), _) => Some(true),
        (Node::Leaf(true), Node::Leaf(other)) => Some(!other),
        (Node::Inner(_), Node::Leaf(false)) => Some(true),
        _ => None,
    }
}

// Puts the pair into the set, and answers true.
fn note(apart: &mut HashSet<Pair>, pair: Pair) -> Result<bool, Memory>
    ensures noted { OnOk result ((q : Pair)
        → contains pair_eq apart.new q ≡ (if pair_eq pair q then true else contains pair_eq apart.old q)) }
    ensures answer { IfOk result (λ answer. answer ≡ true) }
{
    apart.insert(pair)?;
    Ok(true)
}
