// The store: its branches, and the answers that it keeps.
ghost use Rattle.std.specs.Prelude.{◌≡◌, ℕ, ◌<◌, ◌≤◌, ◌&&◌, ◌||◌, not, true, false, [], length, IfOk, IfSome};
ghost use Rattle.std.specs.Prelude.{IsTrue};
ghost use Rattle.pbs_base.specs.Entries.{bit};
ghost use Rattle.bool_terms.specs.Terms.{holds, term_inputs_below, term_of};
ghost use Rattle.bool_bdd.specs.Diagrams.{branch_at, level, node_holds, side_of};
ghost use Rattle.bool_bdd.specs.Diagrams.{FitsAt, Grows, IsAfter, IsDiagram, IsFor, IsMade, IsNode, Keeps};
ghost use Rattle.bool_bdd.specs.Least.{IsLeastOf};
ghost use Rattle.bool_bdd.specs.Choices.{first_of, sides_of, IsAsked, IsChosen};
ghost use Rattle.bool_bdd.specs.declared.node.Node.TheVariants.{Leaf, Inner};

use crate::node::{Branch, Choice, Node};
use bool_terms::Term;
use indexmap::IndexSet;
use pbs_base::Memory;
use std::alloc::Global;
use std::collections::HashMap;
use std::marker::Model;

/// Decision diagrams that share their branches. A branch looks at one input and leads to branches of later inputs.
/// No two branches are equal, and none leads to one node for both values of its input.
#[derive(Drop)]
pub struct Store {
    branches: IndexSet<Branch>,
    chosen: HashMap<Choice, Node>,
    // The least vectors of branches.
    leasts: HashMap<Node, Option<u64>>,
}

impl Model for Store {
    ghost use Rattle.std.specs.Prelude.{List};
    ghost use Rattle.std.specs.HashMap.{get};
    ghost use Rattle.bool_bdd.specs.declared.node.Branch.{Branch};
    ghost use Rattle.bool_bdd.specs.Choices.{IsStore};
    ghost use Rattle.bool_bdd.specs.Members.{choice_eq, node_eq};

    ghost Value = { List Branch };

    ghost view = { λ s. s.branches.keys };

    ghost invariant = { λ s. IsStore s.branches.keys (λ c. get choice_eq s.chosen c) (λ n. get node_eq s.leasts n) };
}

impl Store {
    pub fn new(alloc: Global) -> Store
        ensures { result ≡ [] }
    {
        Store {
            branches: IndexSet::new(alloc),
            chosen: HashMap::new(alloc),
            leasts: HashMap::new(alloc),
        }
    }

    /// A node that stands for the term: it is true in the same vectors. Nodes given before keep their meaning.
    pub fn of_term(&mut self, t: &Term) -> Result<Node, Memory>
        requires { IsTrue (term_inputs_below 64 (term_of t.now)) }
        ensures keeps { Keeps self.old self.new }
        ensures stands { IfOk result (IsFor self.new (holds (term_of t.now))) }
    {
        match t {
            Term::Const(value) => Ok(Node::Leaf(*value)),
            Term::Input(n) => self.var(*n),
            Term::Not(inner) => match self.of_term(inner) {
                Ok(inner) => self.not(inner),
                Err(Memory) => Err(Memory),
            },
            Term::And(left, right) => match self.of_term(left) {
                Ok(left) => match self.of_term(right) {
                    Ok(right) => self.and(left, right),
                    Err(Memory) => Err(Memory),
                },
                Err(Memory) => Err(Memory),
            },
            Term::Or(left, right) => match self.of_term(left) {
                Ok(left) => match self.of_term(right) {
                    Ok(right) => self.either(left, right),
                    Err(Memory) => Err(Memory),
                },
                Err(Memory) => Err(Memory),
            },
        }
    }

    /// A node that stands for the input. Nodes given before keep their meaning.
    pub fn var(&mut self, n: u8) -> Result<Node, Memory>
        requires { n < 64 }
        ensures keeps { Keeps self.old self.new }
        ensures stands { IfOk result (IsFor self.new (bit n)) }
    {
        self.make(Branch {
            variable: n,
            low: Node::Leaf(false),
            high: Node::Leaf(true),
        })
    }

    /// A node that is true where `a` is false. Nodes given before keep their meaning.
    pub fn not(&mut self, a: Node) -> Result<Node, Memory>
        requires { IsNode self.old a }
        ensures keeps { Keeps self.old self.new }
        ensures stands { IfOk result (IsFor self.new (λ v. not (node_holds self.old a v))) }
    {
        self.choose(Choice {
            test: a,
            if_true: Node::Leaf(false),
            if_false: Node::Leaf(true),
        })
    }

    /// A node that is true where both are. Nodes given before keep their meaning.
    pub fn and(&mut self, a: Node, b: Node) -> Result<Node, Memory>
        requires first { IsNode self.old a }
        requires second { IsNode self.old b }
        ensures keeps { Keeps self.old self.new }
        ensures stands { IfOk result (IsFor self.new (λ v. node_holds self.old a v && node_holds self.old b v)) }
    {
        self.choose(Choice {
            test: a,
            if_true: b,
            if_false: Node::Leaf(false),
        })
    }

    fn either(&mut self, a: Node, b: Node) -> Result<Node, Memory>
        requires first { IsNode self.old a }
        requires second { IsNode self.old b }
        ensures keeps { Keeps self.old self.new }
        ensures stands { IfOk result (IsFor self.new (λ v. node_holds self.old a v || node_holds self.old b v)) }
    {
        self.choose(Choice {
            test: a,
            if_true: Node::Leaf(true),
            if_false: b,
        })
    }

    // The node that answers the question.
    fn choose(&mut self, asked: Choice) -> Result<Node, Memory>
        requires { IsAsked self.old asked }
        ensures grows { Grows self.old self.new }
        ensures was { IsDiagram self.old }
        ensures diagram { IsDiagram self.new }
        ensures chosen { IfOk result (IsChosen self.new asked) }
    {
        if let Node::Leaf(value) = asked.test {
            return Ok(self.settle(value, asked));
        }
        if let Some(node) = self.known(asked) {
            return Ok(node);
        }
        let variable = self.first(asked);
        let unset = self.sides(variable, false, asked);
        match self.choose(unset) {
            Ok(low) => {
                let set = self.sides(variable, true, asked);
                match self.choose(set) {
                    Ok(high) => self.conclude(
                        asked,
                        Branch {
                            variable,
                            low,
                            high,
                        },
                    ),
                    Err(Memory) => Err(Memory),
                }
            }
            Err(Memory) => Err(Memory),
        }
    }

    // The answer to a question whose test is a constant.
    fn settle(&self, value: bool, asked: Choice) -> Node
        requires asked { IsAsked self.now asked }
        requires constant { asked.test ≡ Leaf value }
        ensures diagram { IsDiagram self.now }
        ensures chosen { IsChosen self.now asked result }
    {
        // For the proof alone: what a store keeps is known where its branches are read.
        let _ = &self.branches;
        if value { asked.if_true } else { asked.if_false }
    }

    // The kept answer to the question.
    fn known(&self, asked: Choice) -> Option<Node>
        ensures diagram { IsDiagram self.now }
        ensures chosen { IfSome result (IsChosen self.now asked) }
    {
        self.chosen.get(&asked).copied()
    }

    // The first input that the question depends on.
    fn first(&self, asked: Choice) -> u8
        requires { IsAsked self.now asked }
        ensures value { result ≡ first_of self.now asked }
        ensures most { result ≤ 64 }
        ensures inner { (n : ℕ) → asked.test ≡ Inner n → result < 64 }
    {
        let test = self.level(asked.test);
        let if_true = self.level(asked.if_true);
        let if_false = self.level(asked.if_false);
        test.min(if_true.min(if_false))
    }

    // The question where the input has this value.
    fn sides(&self, variable: u8, value: bool, asked: Choice) -> Choice
        requires asked { IsAsked self.now asked }
        requires first { variable ≤ first_of self.now asked }
        requires variable { variable < 64 }
        ensures value { result ≡ sides_of self.now variable value asked }
        ensures asked { IsAsked self.now result }
        ensures later { variable < first_of self.now result }
    {
        Choice {
            test: self.side(variable, value, asked.test),
            if_true: self.side(variable, value, asked.if_true),
            if_false: self.side(variable, value, asked.if_false),
        }
    }

    // From the answers for both values of an input to the answer.
    fn conclude(&mut self, asked: Choice, branch: Branch) -> Result<Node, Memory>
        requires asked { IsAsked self.old asked }
        requires variable { branch.variable ≡ first_of self.old asked }
        requires small { branch.variable < 64 }
        requires low { IsChosen self.old (sides_of self.old branch.variable false asked) branch.low }
        requires high { IsChosen self.old (sides_of self.old branch.variable true asked) branch.high }
        requires low_later { branch.variable < level self.old branch.low }
        requires high_later { branch.variable < level self.old branch.high }
        ensures grows { Grows self.old self.new }
        ensures diagram { IsDiagram self.new }
        ensures chosen { IfOk result (IsChosen self.new asked) }
    {
        let node = self.make(branch)?;
        self.keep(asked, node)
    }

    // Keeps an answer.
    fn keep(&mut self, asked: Choice, node: Node) -> Result<Node, Memory>
        requires { IsChosen self.old asked node }
        ensures same { self.new ≡ self.old }
        ensures chosen { IfOk result (IsChosen self.new asked) }
    {
        self.chosen.insert(asked, node)?;
        Ok(node)
    }

    // A node for the branch, whose least vector is kept.
    fn make(&mut self, branch: Branch) -> Result<Node, Memory>
        requires variable { branch.variable < 64 }
        requires low { IsAfter self.old branch.variable branch.low }
        requires high { IsAfter self.old branch.variable branch.high }
        ensures grows { Grows self.old self.new }
        ensures was { IsDiagram self.old }
        ensures diagram { IsDiagram self.new }
        ensures made { IfOk result (IsMade self.new branch) }
    {
        match self.place(branch) {
            Ok(node) => self.keep_least(node),
            Err(Memory) => Err(Memory),
        }
    }

    // Keeps the least vector of the node.
    fn keep_least(&mut self, node: Node) -> Result<Node, Memory>
        requires { IsNode self.old node }
        ensures same { self.new ≡ self.old }
        ensures node { IfOk result (λ kept. kept ≡ node) }
    {
        if self.leasts.contains_key(&node) {
            return Ok(node);
        }
        let answer = self.least(node);
        self.leasts.insert(node, answer)?;
        Ok(node)
    }

    // The least vector that is kept for the node.
    pub(crate) fn kept_least(&self, node: Node) -> Option<Option<u64>>
        ensures { IfSome result (IsLeastOf self.now node) }
    {
        self.leasts.get(&node).copied()
    }

    // The branch that is there already, a new one, or its child where both are the same.
    fn place(&mut self, branch: Branch) -> Result<Node, Memory>
        requires variable { branch.variable < 64 }
        requires low { IsAfter self.old branch.variable branch.low }
        requires high { IsAfter self.old branch.variable branch.high }
        ensures grows { Grows self.old self.new }
        ensures was { IsDiagram self.old }
        ensures diagram { IsDiagram self.new }
        ensures made { IfOk result (IsMade self.new branch) }
    {
        // For the proof alone: what a store keeps is known where its branches are read.
        let _ = &self.branches;
        if branch.low == branch.high {
            return Ok(branch.low);
        }
        let (number, _) = self.branches.insert_full(branch)?;
        Ok(Node::Inner(number))
    }

    // The first input on a path from the node, 64 at a constant.
    pub(crate) fn level(&self, node: Node) -> u8
        requires { IsNode self.now node }
        ensures value { result ≡ level self.now node }
        ensures diagram { IsDiagram self.now }
        ensures most { result ≤ 64 }
        ensures inner { (n : ℕ) → node ≡ Inner n → result < 64 }
    {
        // For the proof alone: what a store keeps is known where its branches are read.
        let _ = &self.branches;
        match node {
            Node::Leaf(_) => 64,
            Node::Inner(number) => self.branch(number).variable,
        }
    }

    // The node where the input has this value.
    pub(crate) fn side(&self, variable: u8, value: bool, node: Node) -> Node
        requires there { IsNode self.now node }
        requires first { variable ≤ level self.now node }
        requires small { variable < 64 }
        ensures value { result ≡ side_of self.now variable value node }
        ensures after { IsAfter self.now variable result }
    {
        let Node::Inner(number) = node else {
            return node;
        };
        let branch = self.branch(number);
        if branch.variable != variable {
            return node;
        }
        if value { branch.high } else { branch.low }
    }

    // The branch of a number.
    fn branch(&self, number: usize) -> Branch
        requires { number < length self.now }
        ensures value { result ≡ branch_at self.now number }
        ensures fits { FitsAt self.now number result }
    {
        self.branches.as_slice()[number]
    }
}
