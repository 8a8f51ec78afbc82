// The least vector that satisfies a node.
ghost use Rattle.std.specs.Prelude.{◌≡◌, ◌<◌};
ghost use Rattle.bool_bdd.specs.Diagrams.{IsNode};
ghost use Rattle.bool_bdd.specs.Least.{set_in, smaller_of, IsLeastOf};

use crate::node::Node;
use crate::store::Store;

impl Store {
    /// The least vector that satisfies the node, `None` exactly where there is none. The store has kept it since the
    /// node was made.
    pub fn least(&self, a: Node) -> Option<u64>
        requires { IsNode self.now a }
        ensures { IsLeastOf self.now a result }
    {
        match a {
            Node::Leaf(false) => None,
            Node::Leaf(true) => Some(0),
            Node::Inner(_) => match self.kept_least(a) {
                Some(answer) => answer,
                None => {
                    let variable = self.level(a);
                    let low = self.least(self.side(variable, false, a));
                    let high = self.least(self.side(variable, true, a));
                    smaller(low, with_set(variable, high))
                }
            },
        }
    }
}

fn with_set(variable: u8, vector: Option<u64>) -> Option<u64>
    requires { variable < 64 }
    ensures { result ≡ set_in variable vector }
{
    match vector {
        Some(v) => Some(v | (1 << variable)),
        None => None,
    }
}

fn smaller(a: Option<u64>, b: Option<u64>) -> Option<u64>
    ensures { result ≡ smaller_of a b }
{
    match (a, b) {
        (None, _) => b,
        (Some(_), None) => a,
        (Some(v), Some(w)) => Some(v.min(w)),
    }
}
