// How many first places, last places and follow edges a tree has, before any of them is listed.
ghost use Rattle.std.specs.Prelude.{◌≡◌, ◌≤◌, ◌+◌, ◌*◌, ◌&&◌, ◌||◌, min, true, if◌then◌else◌};
ghost use Rattle.pbs_ast.specs.Trees.{tree_of};
ghost use Rattle.pbs_ast.specs.Sound.{place_count};
ghost use Rattle.pbs_edges.specs.inner.Counting.{AreCounts, AreFew};

use pbs_ast::{Tree, TreeKind};

/// The most follow edges that a tree may have.
pub const MOST_EDGES: u64 = 16_384;

// Whether the tree may be empty, and how many of each it has. The number of edges stays at the first one over the
// limit.
#[derive(Clone, Copy)]
pub struct Counts {
    pub nullable: bool,
    pub firsts: u64,
    pub lasts: u64,
    pub follows: u64,
}

// The number where the condition holds, and otherwise 0.
fn when(condition: bool, number: u64) -> u64
    ensures { result ≡ (if condition then number else 0) }
{
    if condition { number } else { 0 }
}

// The edges of the parts, and those from so many places to so many.
fn with_edges(inner: u64, lasts: u64, firsts: u64) -> u64
    requires inner { inner ≤ 49155 }
    requires lasts { lasts ≤ 4096 }
    requires firsts { firsts ≤ 4096 }
    ensures { result ≡ min (inner + lasts * firsts) 16385 }
{
    let own = lasts * firsts;
    (inner + own).min(MOST_EDGES + 1)
}

fn in_turn(left: Counts, right: Counts) -> Counts
    requires left { AreFew left }
    requires right { AreFew right }
    ensures nullable { result.nullable ≡ (left.nullable && right.nullable) }
    ensures firsts { result.firsts ≡ left.firsts + (if left.nullable then right.firsts else 0) }
    ensures lasts { result.lasts ≡ (if right.nullable then left.lasts else 0) + right.lasts }
    ensures follows { result.follows ≡ min (left.follows + right.follows + left.lasts * right.firsts) 16385 }
{
    Counts {
        nullable: left.nullable && right.nullable,
        firsts: left.firsts + when(left.nullable, right.firsts),
        lasts: when(right.nullable, left.lasts) + right.lasts,
        follows: with_edges(left.follows + right.follows, left.lasts, right.firsts),
    }
}

fn either(left: Counts, right: Counts) -> Counts
    requires left { AreFew left }
    requires right { AreFew right }
    ensures nullable { result.nullable ≡ (left.nullable || right.nullable) }
    ensures firsts { result.firsts ≡ left.firsts + right.firsts }
    ensures lasts { result.lasts ≡ left.lasts + right.lasts }
    ensures follows { result.follows ≡ min (left.follows + right.follows) 16385 }
{
    Counts {
        nullable: left.nullable || right.nullable,
        firsts: left.firsts + right.firsts,
        lasts: left.lasts + right.lasts,
        follows: with_edges(left.follows + right.follows, 0, 0),
    }
}

fn repeated(body: Counts) -> Counts
    requires { AreFew body }
    ensures nullable { result.nullable ≡ true }
    ensures firsts { result.firsts ≡ body.firsts }
    ensures lasts { result.lasts ≡ body.lasts }
    ensures follows { result.follows ≡ min (body.follows + body.lasts * body.firsts) 16385 }
{
    Counts {
        nullable: true,
        firsts: body.firsts,
        lasts: body.lasts,
        follows: with_edges(body.follows, body.lasts, body.firsts),
    }
}

fn scoped(body: Counts, trap: Counts, after: Counts) -> Counts
    requires body { AreFew body }
    requires trap { AreFew trap }
    requires after { AreFew after }
    ensures nullable { result.nullable ≡ body.nullable }
    ensures firsts { result.firsts ≡ body.firsts + trap.firsts }
    ensures lasts { result.lasts ≡ body.lasts + ((if after.nullable then trap.lasts else 0) + after.lasts) }
    ensures follows { result.follows
        ≡ min (body.follows + trap.follows + after.follows + trap.lasts * after.firsts) 16385 }
{
    let inner = body.follows + trap.follows + after.follows;
    Counts {
        nullable: body.nullable,
        firsts: body.firsts + trap.firsts,
        lasts: body.lasts + (when(after.nullable, trap.lasts) + after.lasts),
        follows: with_edges(inner, trap.lasts, after.firsts),
    }
}

// The counts of the tree.
pub(crate) fn count_all(tree: &Tree) -> Counts
    requires { place_count (tree_of tree.now) ≤ 4096 }
    ensures { AreCounts (tree_of tree.now) result }
{
    match &tree.kind {
        TreeKind::Empty | TreeKind::Action(_) => Counts {
            nullable: true,
            firsts: 0,
            lasts: 0,
            follows: 0,
        },
        TreeKind::Terminal(_, _) => Counts {
            nullable: false,
            firsts: 1,
            lasts: 1,
            follows: 0,
        },
        TreeKind::Seq(left, right) => in_turn(count_all(left), count_all(right)),
        TreeKind::Choice(left, right) => either(count_all(left), count_all(right)),
        TreeKind::Star(body) => repeated(count_all(body)),
        TreeKind::Hold(_, body) => count_all(body),
        TreeKind::Scope(_, body, trap, after) => scoped(
            count_all(body),
            count_all(trap),
            count_all(after),
        ),
    }
}
