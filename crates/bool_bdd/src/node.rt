/// A node of a store: a constant, or the branch of this number.
#[derive(Clone, Copy, Debug, PartialEq, Eq, Hash)]
pub enum Node {
    Leaf(bool),
    Inner(usize),
}

/// A test of one input, with the nodes for its two values.
#[derive(Clone, Copy, PartialEq, Eq, Hash)]
pub struct Branch {
    pub variable: u8,
    pub low: Node,
    pub high: Node,
}

/// The question for a node that is true where `if test then if_true else if_false` is.
#[derive(Clone, Copy, PartialEq, Eq, Hash)]
pub struct Choice {
    pub test: Node,
    pub if_true: Node,
    pub if_false: Node,
}

/// The question whether some vector satisfies both nodes.
#[derive(Clone, Copy, PartialEq, Eq, Hash)]
pub struct Pair {
    pub left: Node,
    pub right: Node,
}
