// The edges of main, within the limits.
ghost use Rattle.std.specs.Prelude.{◌≡◌, IfErr, IfOk, MatchBool};
ghost use Rattle.pbs_ast.specs.Trees.{tree_of};
ghost use Rattle.pbs_edges.specs.Found.{AreEdges, HasFewTerms, HasManyTerms, IsEdgeCause};

use crate::counts::{MOST_EDGES, count_all};
use crate::edge::{Edge, EdgeList, Edges, Places};
use crate::ends::list_all;
use crate::fail::EdgeFail;
use crate::terms::{MOST_TERMS, find_terms};
use pbs_ast::Main;
use pbs_base::{Listed, Memory};
use std::alloc::Global;

// The places as a list.
fn listed_places(alloc: Global, places: &[u32]) -> Result<Places, Memory>
    ensures { IfOk result (λ list. list ≡ places.now) }
{
    let mut list = Listed::new(alloc);
    for place in places {
        list.push(*place)?;
    }
    Ok(list)
}

// The edges as a list.
fn listed_edges(alloc: Global, edges: &[Edge]) -> Result<EdgeList, Memory>
    ensures { IfOk result (λ list. list ≡ edges.now) }
{
    let mut list = Listed::new(alloc);
    for edge in edges {
        list.push(*edge)?;
    }
    Ok(list)
}

// Whether there are more than 256 different effective terms.
fn has_many_terms(alloc: Global, main: &Main) -> Result<bool, Memory>
    ensures { IfOk result (λ many. MatchBool many (HasManyTerms (tree_of main.now.tree) 256)
        (HasFewTerms (tree_of main.now.tree) 256)) }
{
    let table = find_terms(alloc, main)?;
    Ok(table.codes.len() > MOST_TERMS)
}

/// The first places and the follow edges of main, each once and in rising order. `TooManyEdges` exactly where there are
/// more than 16,384 follow edges; `TooManyTerms` exactly where there aren't, and there are more than 256 different
/// effective terms.
pub fn edges(alloc: Global, main: &Main) -> Result<Edges, EdgeFail>
    ensures found { IfOk result (AreEdges (tree_of main.now.tree)) }
    ensures cause { IfErr result (IsEdgeCause (tree_of main.now.tree)) }
{
    if count_all(&main.tree).follows > MOST_EDGES {
        return Err(EdgeFail::TooManyEdges);
    }
    if has_many_terms(alloc, main)? {
        return Err(EdgeFail::TooManyTerms);
    }
    let mut follows = Vec::new(alloc);
    let ends = list_all(alloc, &main.tree, &mut follows)?;
    follows.sort_unstable();
    Ok(Edges {
        starts: listed_places(alloc, &ends.firsts)?,
        follows: listed_edges(alloc, &follows)?,
    })
}
