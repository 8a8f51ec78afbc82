// Which places' effective terms can be true in one vector.
ghost use Rattle.std.specs.Prelude.{◌≡◌, ◌≤◌, ◌<◌, ◌*◌, length, slice_index, ℕ, IfOk};
ghost use Rattle.pbs_ast.specs.Trees.{tree_of};
ghost use Rattle.pbs_edges.specs.Found.{HasFewTerms};
ghost use Rattle.pbs_overlap.specs.inner.Joints.{joint_at, AllInputsBelow, AllNodes, AreNodes, AreTold, TellsJoint};

use bool_bdd::{Node, Store};
use bool_terms::Term;
use pbs_ast::Main;
use pbs_base::Memory;
use pbs_edges::{Places, TermTable, find_terms};
use std::alloc::Global;

/// For each place the number of its effective term, and for each two of these terms whether some vector satisfies both.
#[derive(Drop)]
pub struct JointTerms {
    pub of_place: Places,
    pub count: usize,
    pub joint: Vec<bool>,
}

// The nodes of a store that stand for the terms.
fn nodes_of(alloc: Global, store: &mut Store, terms: &[Term]) -> Result<Vec<Node>, Memory>
    requires inputs { AllInputsBelow terms.now }
    ensures nodes { IfOk result (λ nodes. AreNodes store.new terms.now nodes.items) }
{
    let mut nodes = Vec::new(alloc);
    for term in terms {
        let node = store.of_term(term)?;
        nodes.push(node)?;
    }
    Ok(nodes)
}

// For each two nodes whether some vector satisfies both.
fn joint_table(alloc: Global, store: &Store, nodes: &[Node]) -> Result<Vec<bool>, Memory>
    requires few { length nodes.now ≤ 4096 }
    requires there { AllNodes store.now nodes.now }
    ensures size { IfOk result (λ table. length table.items ≡ length nodes.now * length nodes.now) }
    ensures told { IfOk result (λ table.
        AreTold store.now nodes.now (length nodes.now * length nodes.now) table.items) }
{
    let count = nodes.len();
    let mut table = Vec::new(alloc);
    for cell in 0..count * count {
        let apart = store.disjoint(alloc, nodes[cell / count], nodes[cell % count])?;
        table.push(!apart)?;
    }
    Ok(table)
}

/// For each two places of main whether their effective terms can be true in one vector.
pub(crate) fn joint_terms(alloc: Global, main: &Main) -> Result<JointTerms, Memory>
    requires { HasFewTerms (tree_of main.now.tree) 256 }
    ensures { IfOk result (TellsJoint (tree_of main.now.tree)) }
{
    let TermTable {
        codes: _,
        terms,
        of_place,
    } = find_terms(alloc, main)?;
    let mut store = Store::new(alloc);
    let nodes = nodes_of(alloc, &mut store, terms.as_slice())?;
    let joint = joint_table(alloc, &store, &nodes)?;
    Ok(JointTerms {
        of_place,
        count: nodes.len(),
        joint,
    })
}

impl JointTerms {
    /// Whether the effective terms of both places can be true in one vector.
    #[inline]
    pub(crate) fn open_together(&self, p: usize, q: usize) -> bool
        requires p { p < length self.now.of_place }
        requires q { q < length self.now.of_place }
        requires few { self.now.count ≤ 256 }
        requires below { (k : ℕ) → k < length self.now.of_place → slice_index self.now.of_place k < self.now.count }
        requires table { length self.now.joint.items ≡ self.now.count * self.now.count }
        ensures { result ≡ joint_at self.now p q }
    {
        let of_place = self.of_place.as_slice();
        self.joint[of_place[p] as usize * self.count + of_place[q] as usize]
    }
}
