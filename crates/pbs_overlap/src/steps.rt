// Follow edges with what they abort and enter.
ghost use Rattle.std.specs.Prelude.{◌≡◌, ◌≤◌, length};
ghost use Rattle.pbs_overlap.specs.inner.Steps.{aborts_range, clash, enters_range, is_within, refused_scope};
ghost use Rattle.pbs_overlap.specs.inner.Steps.{aborts_scope};
ghost use Rattle.pbs_overlap.specs.inner.Steps.{IsAborted, IsEntered};

use crate::ranges::ScopeRange;

/// A scope, with nodes from `first` up to `end`.
#[derive(Clone, Copy)]
pub struct Region {
    pub scope: u32,
    pub first: u32,
    pub end: u32,
}

/// A follow edge: the terminal that is left, the scope that is aborted with the nodes of its body and its trap, and the
/// outermost scope that is entered with the nodes of its body.
#[derive(Clone, Copy)]
pub struct Step {
    pub from: u32,
    pub to: u32,
    pub node: u32,
    pub leaf: u32,
    pub aborts: Option<Region>,
    pub enters: Option<Region>,
}

fn is_within(node: u32, first: u32, end: u32) -> bool
    ensures { result ≡ is_within node first end }
{
    first <= node && node < end
}

fn aborts_range(leaf: u32, node: u32, range: &ScopeRange) -> bool
    ensures { result ≡ aborts_range leaf node range.now }
{
    is_within(leaf, range.trap, range.after) && !is_within(node, range.trap, range.after)
}

fn enters_range(leaf: u32, node: u32, range: &ScopeRange) -> bool
    ensures { result ≡ enters_range leaf node range.now }
{
    is_within(leaf, range.body, range.after) && !is_within(node, range.body, range.after)
}

// The scope in whose trap the terminal that is left lies, and the node doesn't.
pub(crate) fn aborted(ranges: &[ScopeRange], leaf: u32, node: u32) -> Option<Region>
    requires { length ranges.now ≤ 32768 }
    ensures { IsAborted ranges.now leaf node result }
{
    for s in 0..ranges.len() {
        let range = ranges[s];
        if aborts_range(leaf, node, &range) {
            return Some(Region {
                scope: s as u32,
                first: range.body,
                end: range.after,
            });
        }
    }
    None
}

// The outermost scope in which the terminal that is reached lies, and the node doesn't.
pub(crate) fn entered(ranges: &[ScopeRange], leaf: u32, node: u32) -> Option<Region>
    requires { length ranges.now ≤ 32768 }
    ensures { IsEntered ranges.now leaf node result }
{
    for s in 0..ranges.len() {
        let range = ranges[s];
        if enters_range(leaf, node, &range) {
            return Some(Region {
                scope: s as u32,
                first: range.body,
                end: range.trap,
            });
        }
    }
    None
}

impl Step {
    fn aborts_scope(&self, scope: u32) -> bool
        ensures { result ≡ aborts_scope self.now scope }
    {
        match self.aborts {
            Some(region) => region.scope == scope,
            None => false,
        }
    }

    /// Whether it aborts a scope that the other one leaves without aborting it.
    #[inline]
    pub(crate) fn clashes(&self, other: &Step) -> bool
        ensures { result ≡ clash self.now other.now }
    {
        match self.aborts {
            Some(region) => {
                is_within(other.leaf, region.first, region.end) && !other.aborts_scope(region.scope)
            }
            None => false,
        }
    }

    /// The lowest scope that the other one enters, and inside whose body it lies itself.
    pub(crate) fn refused(&self, other: &Step) -> Option<u32>
        ensures { result ≡ refused_scope self.now other.now }
    {
        match other.enters {
            Some(region) => {
                if is_within(self.node, region.first, region.end) {
                    Some(region.scope)
                } else {
                    None
                }
            }
            None => None,
        }
    }
}
