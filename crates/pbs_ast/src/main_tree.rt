// The tree of main.
ghost use Rattle.std.specs.Prelude.{◌≡◌};
ghost use Rattle.pbs_ast.specs.Trees.{tree_of};
ghost use Rattle.pbs_ast.specs.Sound.{IsSound};

use crate::tree::Tree;

/// The tree of main in an accepted specification: no star's body and no trap may cover the empty stretch, each scope's
/// body has a terminal and its trap neither actions nor scopes, no effective term has more than 10 inputs, all inputs
/// are below 64, and nodes, places and scopes are numbered from 0 in the order of visits, within the limits.
#[derive(Drop)]
pub struct Main {
    pub tree: Tree,
    pub ghost sound: { IsSound (tree_of tree) },
}

impl Main {
    pub fn new(tree: Tree) -> Main
        requires { IsSound (tree_of tree) }
        ensures { result.tree ≡ tree }
    {
        Main { tree }
    }
}
