// The expanded tree: docs/LANGUAGE.md, "Expansion".
ghost use Rattle.std.specs.Prelude.{◌≡◌, ◌≤◌, IsTrue};
ghost use Rattle.pbs_ast.specs.Trees.{tree_of, nullable, has_terminal};
ghost use Rattle.pbs_ast.specs.Sound.{first_wide, inputs_below, or_else, place_count};

use bool_terms::Term;
use pbs_base::Span;

/// A node of the expanded tree. Nodes are numbered from 0 in the order of visits.
#[cycle(tree)]
#[derive(Drop)]
pub struct Tree {
    pub span: Span,
    pub number: u32,
    pub kind: TreeKind,
}

#[cycle(tree)]
#[derive(Drop)]
pub enum TreeKind {
    Empty,
    /// The place's number and its own term.
    Terminal(u32, Term),
    /// The action's number in declared order.
    Action(u8),
    Seq(Box<Tree>, Box<Tree>),
    Choice(Box<Tree>, Box<Tree>),
    Star(Box<Tree>),
    Hold(Term, Box<Tree>),
    /// The scope's number, its body, its trap and its after part.
    Scope(u32, Box<Tree>, Box<Tree>, Box<Tree>),
}

impl Tree {
    /// Whether the tree may cover the empty stretch.
    pub fn nullable(&self) -> bool
        ensures { result ≡ nullable (tree_of self.now) }
    {
        match &self.kind {
            TreeKind::Empty | TreeKind::Action(_) | TreeKind::Star(_) => true,
            TreeKind::Terminal(_, _) => false,
            TreeKind::Seq(first, second) => first.nullable() && second.nullable(),
            TreeKind::Choice(left, right) => left.nullable() || right.nullable(),
            TreeKind::Hold(_, body) => body.nullable(),
            TreeKind::Scope(_, body, _, _) => body.nullable(),
        }
    }

    /// How many places the tree has.
    pub fn count_places(&self) -> usize
        requires { place_count (tree_of self.now) ≤ 4096 }
        ensures { result ≡ place_count (tree_of self.now) }
    {
        match &self.kind {
            TreeKind::Empty | TreeKind::Action(_) => 0,
            TreeKind::Terminal(_, _) => 1,
            TreeKind::Seq(left, right) | TreeKind::Choice(left, right) => {
                left.count_places() + right.count_places()
            }
            TreeKind::Star(body) | TreeKind::Hold(_, body) => body.count_places(),
            TreeKind::Scope(_, body, trap, after) => {
                body.count_places() + trap.count_places() + after.count_places()
            }
        }
    }

    /// Whether a terminal stands in the tree.
    pub fn has_terminal(&self) -> bool
        ensures { result ≡ has_terminal (tree_of self.now) }
    {
        match &self.kind {
            TreeKind::Empty | TreeKind::Action(_) => false,
            TreeKind::Terminal(_, _) => true,
            TreeKind::Seq(left, right) | TreeKind::Choice(left, right) => {
                left.has_terminal() || right.has_terminal()
            }
            TreeKind::Star(body) | TreeKind::Hold(_, body) => body.has_terminal(),
            TreeKind::Scope(_, body, trap, after) => {
                body.has_terminal() || trap.has_terminal() || after.has_terminal()
            }
        }
    }
}

fn or_else(first: Option<Span>, second: Option<Span>) -> Option<Span>
    ensures { result ≡ or_else first second }
{
    match first {
        Some(span) => Some(span),
        None => second,
    }
}

/// The span of the first place, in the order of places, whose effective term has more than 10 inputs. `held` is the
/// set of the inputs of the holds round the tree, as the bits of a number.
pub fn first_wide(tree: &Tree, held: u64) -> Option<Span>
    requires { IsTrue (inputs_below 64 (tree_of tree.now)) }
    ensures { result ≡ first_wide held (tree_of tree.now) }
{
    match &tree.kind {
        TreeKind::Empty | TreeKind::Action(_) => None,
        TreeKind::Terminal(_, term) => {
            if (held | term.inputs()).count_ones() > 10 {
                Some(tree.span)
            } else {
                None
            }
        }
        TreeKind::Seq(left, right) => or_else(first_wide(left, held), first_wide(right, held)),
        TreeKind::Choice(left, right) => or_else(first_wide(left, held), first_wide(right, held)),
        TreeKind::Star(body) => first_wide(body, held),
        TreeKind::Hold(term, body) => first_wide(body, held | term.inputs()),
        TreeKind::Scope(_, body, trap, after) => or_else(
            first_wide(body, held),
            or_else(first_wide(trap, held), first_wide(after, held)),
        ),
    }
}
