// Edges, and the lists of them.
use pbs_base::Listed;

/// A step from a place to another one, by the sequence, star or scope of this number. Edges are ordered by `from`, then
/// by `to`, then by `node`.
#[derive(Clone, Copy, Debug, PartialEq, Eq, PartialOrd, Ord)]
pub struct Edge {
    pub from: u32,
    pub to: u32,
    pub node: u32,
}

pub type Places = Listed<u32>;

pub type EdgeList = Listed<Edge>;

/// The places that main begins with, and its follow edges.
#[derive(Drop)]
pub struct Edges {
    pub starts: Places,
    pub follows: EdgeList,
}
