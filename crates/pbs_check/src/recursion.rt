// The least use at which productions use each other in a circle.
ghost use Rattle.std.specs.Prelude.{◌≡◌, None, slice_index_or};
ghost use Rattle.pbs_check.specs.inner.Circles.{AreAllRoots, round_span};
ghost use Rattle.pbs_check.specs.Least.{IsLeast, least_by};
ghost use Rattle.pbs_check.specs.inner.Links.{HasRecursion};

use crate::graph::Link;
use crate::least::least_of;
use pbs_base::Span;

fn root_of(roots: &[Option<usize>], number: usize) -> Option<usize>
    ensures { result ≡ slice_index_or roots.now number None }
{
    if number < roots.len() {
        roots[number]
    } else {
        None
    }
}

fn round_span(roots: &[Option<usize>], root: Option<usize>, link: Link) -> Option<Span>
    ensures { result ≡ round_span roots.now root link }
{
    if root_of(roots, link.to) == root {
        Some(link.span)
    } else {
        None
    }
}

/// The least use of a production in the circle of that root.
fn least_round(roots: &[Option<usize>], root: Option<usize>, links: &[Link]) -> Option<Span>
    ensures { result ≡ least_by (round_span roots.now root) links.now }
{
    let mut found = None;
    for link in links {
        found = least_of(found, round_span(roots, root, *link));
    }
    found
}

/// The least use of a production in the circle of its user.
pub(crate) fn least_recursion(uses: &[Vec<Link>], roots: &[Option<usize>]) -> Option<Span>
    requires { AreAllRoots uses.now roots.now }
    ensures { IsLeast (HasRecursion uses.now) result }
{
    let mut found = None;
    for (number, links) in uses.iter().enumerate() {
        let root = root_of(roots, number);
        found = least_of(found, least_round(roots, root, links.as_slice()));
    }
    found
}
