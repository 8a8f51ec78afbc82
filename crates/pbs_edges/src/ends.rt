// The first places, the last places and the follow edges of a tree, as lists.
ghost use Rattle.std.specs.Prelude.{◌≡◌, ◌++◌, ◌&&◌, ◌||◌, [], ◌∷◌, true, false, IfOk, OnOk, if◌then◌else◌};
ghost use Rattle.pbs_ast.specs.Trees.{tree_of};
ghost use Rattle.pbs_edges.specs.Listed.{edges_between, edges_to, follow_edges};
ghost use Rattle.pbs_edges.specs.inner.Ending.{AreEnds};

use crate::edge::Edge;
use pbs_ast::{Tree, TreeKind};
use pbs_base::Memory;
use std::alloc::Global;

// Whether a tree may be empty, and its first and last places in rising order.
#[derive(Drop)]
pub struct Ends {
    pub nullable: bool,
    pub firsts: Vec<u32>,
    pub lasts: Vec<u32>,
}

// Both lists, one after the other.
fn joined(mut left: Vec<u32>, right: &[u32]) -> Result<Vec<u32>, Memory>
    ensures { IfOk result (λ both. both.items ≡ left.items ++ right.now) }
{
    left.extend_from_slice(right)?;
    Ok(left)
}

// Both lists where the condition holds, and otherwise the first one.
fn joined_if(condition: bool, left: Vec<u32>, right: &[u32]) -> Result<Vec<u32>, Memory>
    ensures { IfOk result (λ both. both.items ≡ left.items ++ (if condition then right.now else [])) }
{
    if condition {
        joined(left, right)
    } else {
        Ok(left)
    }
}

// The list where the condition holds, and otherwise none.
fn only_if(alloc: Global, condition: bool, places: Vec<u32>) -> Vec<u32>
    ensures { result.items ≡ (if condition then places.items else []) }
{
    if condition { places } else { Vec::new(alloc) }
}

// Appends the edges by a node from one place to each of `tos`.
fn push_to(node: u32, from: u32, tos: &[u32], out: &mut Vec<Edge>) -> Result<(), Memory>
    ensures { OnOk result (out.new.items ≡ out.old.items ++ edges_to node from tos.now) }
{
    for to in tos {
        out.push(Edge {
            from,
            to: *to,
            node,
        })?;
    }
    Ok(())
}

// Appends the edges by a node from each of `froms` to each of `tos`.
fn push_between(node: u32, froms: &[u32], tos: &[u32], out: &mut Vec<Edge>) -> Result<(), Memory>
    ensures { OnOk result (out.new.items ≡ out.old.items ++ edges_between node froms.now tos.now) }
{
    for from in froms {
        push_to(node, *from, tos, out)?;
    }
    Ok(())
}

fn none(alloc: Global) -> Result<Ends, Memory>
    ensures nullable { IfOk result (λ ends. ends.nullable ≡ true) }
    ensures firsts { IfOk result (λ ends. ends.firsts.items ≡ []) }
    ensures lasts { IfOk result (λ ends. ends.lasts.items ≡ []) }
{
    Ok(Ends {
        nullable: true,
        firsts: Vec::new(alloc),
        lasts: Vec::new(alloc),
    })
}

fn one(alloc: Global, place: u32) -> Result<Ends, Memory>
    ensures nullable { IfOk result (λ ends. ends.nullable ≡ false) }
    ensures firsts { IfOk result (λ ends. ends.firsts.items ≡ place ∷ []) }
    ensures lasts { IfOk result (λ ends. ends.lasts.items ≡ place ∷ []) }
{
    Ok(Ends {
        nullable: false,
        firsts: vec![in alloc; place]?,
        lasts: vec![in alloc; place]?,
    })
}

// The ends of a sequence, whose own edges are appended.
fn in_turn(
    alloc: Global,
    node: u32,
    left: Ends,
    right: Ends,
    out: &mut Vec<Edge>,
) -> Result<Ends, Memory>
    ensures nullable { IfOk result (λ ends. ends.nullable ≡ (left.nullable && right.nullable)) }
    ensures firsts { IfOk result (λ ends. ends.firsts.items
        ≡ left.firsts.items ++ (if left.nullable then right.firsts.items else [])) }
    ensures lasts { IfOk result (λ ends. ends.lasts.items
        ≡ (if right.nullable then left.lasts.items else []) ++ right.lasts.items) }
    ensures follows { OnOk result (out.new.items
        ≡ out.old.items ++ edges_between node left.lasts.items right.firsts.items) }
{
    push_between(node, &left.lasts, &right.firsts, out)?;
    let firsts = joined_if(left.nullable, left.firsts, &right.firsts)?;
    let lasts = joined(only_if(alloc, right.nullable, left.lasts), &right.lasts)?;
    Ok(Ends {
        nullable: left.nullable && right.nullable,
        firsts,
        lasts,
    })
}

// The ends of a choice.
fn either(left: Ends, right: Ends) -> Result<Ends, Memory>
    ensures nullable { IfOk result (λ ends. ends.nullable ≡ (left.nullable || right.nullable)) }
    ensures firsts { IfOk result (λ ends. ends.firsts.items ≡ left.firsts.items ++ right.firsts.items) }
    ensures lasts { IfOk result (λ ends. ends.lasts.items ≡ left.lasts.items ++ right.lasts.items) }
{
    let firsts = joined(left.firsts, &right.firsts)?;
    let lasts = joined(left.lasts, &right.lasts)?;
    Ok(Ends {
        nullable: left.nullable || right.nullable,
        firsts,
        lasts,
    })
}

// The ends of a star, whose own edges are appended.
fn repeated(node: u32, body: Ends, out: &mut Vec<Edge>) -> Result<Ends, Memory>
    ensures nullable { IfOk result (λ ends. ends.nullable ≡ true) }
    ensures firsts { IfOk result (λ ends. ends.firsts.items ≡ body.firsts.items) }
    ensures lasts { IfOk result (λ ends. ends.lasts.items ≡ body.lasts.items) }
    ensures follows { OnOk result (out.new.items
        ≡ out.old.items ++ edges_between node body.lasts.items body.firsts.items) }
{
    push_between(node, &body.lasts, &body.firsts, out)?;
    Ok(Ends {
        nullable: true,
        firsts: body.firsts,
        lasts: body.lasts,
    })
}

// The ends of a scope, whose own edges are appended.
fn scoped(
    alloc: Global,
    node: u32,
    body: Ends,
    trap: Ends,
    after: Ends,
    out: &mut Vec<Edge>,
) -> Result<Ends, Memory>
    ensures nullable { IfOk result (λ ends. ends.nullable ≡ body.nullable) }
    ensures firsts { IfOk result (λ ends. ends.firsts.items ≡ body.firsts.items ++ trap.firsts.items) }
    ensures lasts { IfOk result (λ ends. ends.lasts.items
        ≡ body.lasts.items ++ ((if after.nullable then trap.lasts.items else []) ++ after.lasts.items)) }
    ensures follows { OnOk result (out.new.items
        ≡ out.old.items ++ edges_between node trap.lasts.items after.firsts.items) }
{
    push_between(node, &trap.lasts, &after.firsts, out)?;
    let firsts = joined(body.firsts, &trap.firsts)?;
    let later = joined(only_if(alloc, after.nullable, trap.lasts), &after.lasts)?;
    let lasts = joined(body.lasts, &later)?;
    Ok(Ends {
        nullable: body.nullable,
        firsts,
        lasts,
    })
}

// The ends of the tree, whose follow edges are appended, those of a node after those of its parts.
pub(crate) fn list_all(alloc: Global, tree: &Tree, out: &mut Vec<Edge>) -> Result<Ends, Memory>
    ensures ends { IfOk result (λ ends. AreEnds (tree_of tree.now) ends) }
    ensures follows { OnOk result (out.new.items ≡ out.old.items ++ follow_edges (tree_of tree.now)) }
{
    match &tree.kind {
        TreeKind::Empty | TreeKind::Action(_) => none(alloc),
        TreeKind::Terminal(place, _) => one(alloc, *place),
        TreeKind::Seq(left, right) => match list_all(alloc, left, out) {
            Ok(left) => match list_all(alloc, right, out) {
                Ok(right) => in_turn(alloc, tree.number, left, right, out),
                Err(Memory) => Err(Memory),
            },
            Err(Memory) => Err(Memory),
        },
        TreeKind::Choice(left, right) => match list_all(alloc, left, out) {
            Ok(left) => match list_all(alloc, right, out) {
                Ok(right) => either(left, right),
                Err(Memory) => Err(Memory),
            },
            Err(Memory) => Err(Memory),
        },
        TreeKind::Star(body) => match list_all(alloc, body, out) {
            Ok(body) => repeated(tree.number, body, out),
            Err(Memory) => Err(Memory),
        },
        TreeKind::Hold(_, body) => list_all(alloc, body, out),
        TreeKind::Scope(_, body, trap, after) => match list_all(alloc, body, out) {
            Ok(body) => match list_all(alloc, trap, out) {
                Ok(trap) => match list_all(alloc, after, out) {
                    Ok(after) => scoped(alloc, tree.number, body, trap, after, out),
                    Err(Memory) => Err(Memory),
                },
                Err(Memory) => Err(Memory),
            },
            Err(Memory) => Err(Memory),
        },
    }
}
