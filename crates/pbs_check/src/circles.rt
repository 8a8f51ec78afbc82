// The circles in which productions use each other: two are in one where each can be reached from the other by uses.
ghost use Rattle.std.specs.Prelude.{◌<◌, length, IfOk};
ghost use Rattle.pbs_check.specs.inner.Links.{AreTargets, AreUsers, IsClosed};

use crate::graph::Graph;
use crate::searching::{has_label, spread};
use pbs_base::Memory;
use std::alloc::Global;

/// Of each production the one that names its circle, once that is known, and the last from which a search back came
/// to it.
#[derive(Drop)]
pub struct Circles {
    pub roots: Vec<Option<usize>>,
    pub back: Vec<Option<usize>>,
}

impl Circles {
    ghost use Rattle.std.specs.Prelude.{◌≡◌, ℕ};
    ghost use Rattle.pbs_check.specs.inner.Searching.{IsMarked};
    ghost use Rattle.pbs_check.specs.inner.Circles.{AreAllRoots, AreCircles, HasRoot, KeepsRoots};

    fn new(alloc: Global, count: usize) -> Result<Circles, Memory>
        ensures roots { IfOk result (λ circles. length circles.roots.items ≡ count) }
        ensures back { IfOk result (λ circles. length circles.back.items ≡ count) }
        ensures unknown { IfOk result (λ circles. (root k : ℕ) → IsMarked circles.roots.items root k → ⊥) }
        ensures unseen { IfOk result (λ circles. (root k : ℕ) → IsMarked circles.back.items root k → ⊥) }
    {
        Ok(Circles {
            roots: vec![in alloc; None; count]?,
            back: vec![in alloc; None; count]?,
        })
    }

    /// Finds the circle of a production, where it isn't known: of those from which it is reached, those that it
    /// reaches.
    fn find(self, alloc: Global, graph: &Graph, root: usize) -> Result<Circles, Memory>
        requires closed { IsClosed graph.now.uses.items }
        requires users { AreUsers graph.now.uses.items graph.now.users.items }
        requires targets { AreTargets graph.now.uses.items graph.now.targets.items }
        requires circles { AreCircles graph.now.uses.items self }
        ensures circles { IfOk result (AreCircles graph.now.uses.items) }
        ensures kept { IfOk result (λ new. KeepsRoots self.roots.items new.roots.items) }
        ensures found { IfOk result (λ new. root < length graph.now.uses.items → HasRoot new.roots.items root) }
    {
        if !has_label(self.roots.as_slice(), root, None) {
            return Ok(self);
        }
        let Circles { roots, back } = self;
        let users = graph.users.as_slice();
        let back = spread(alloc, users, roots.as_slice(), None, root, back)?;
        let targets = graph.targets.as_slice();
        let roots = spread(alloc, targets, back.as_slice(), Some(root), root, roots)?;
        Ok(Circles { roots, back })
    }

    /// Finds the circles of all productions. Fastest where users stand after those that they use.
    pub(crate) fn find_all(
        alloc: Global,
        graph: &Graph,
        order: &[usize],
        count: usize,
    ) -> Result<Circles, Memory>
        requires closed { IsClosed graph.now.uses.items }
        requires users { AreUsers graph.now.uses.items graph.now.users.items }
        requires targets { AreTargets graph.now.uses.items graph.now.targets.items }
        requires count { count ≡ length graph.now.uses.items }
        ensures { IfOk result (λ circles. AreAllRoots graph.now.uses.items circles.roots.items) }
    {
        let mut circles = Circles::new(alloc, count)?;
        for root in order.iter().rev() {
            circles = circles.find(alloc, graph, *root)?;
        }
        for root in 0..count {
            circles = circles.find(alloc, graph, root)?;
        }
        Ok(circles)
    }
}
