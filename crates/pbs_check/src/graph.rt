// Productions by their numbers, and how they use each other.
ghost use Rattle.std.specs.Prelude.{◌≡◌, ◌<◌, ◌++◌, ℕ, ◌⊎◌, length, IfOk, OnOk};
ghost use Rattle.pbs_names.specs.Numbers.{number_in};
ghost use Rattle.pbs_check.specs.inner.Walking.{inside, inside_all};
ghost use Rattle.pbs_check.specs.inner.Links.{link_to, links_in, AreLinks, HasNext, AreUsers, AddsUsers};
ghost use Rattle.pbs_check.specs.inner.Links.{targets_of, AreTargets};

use pbs_ast::{Expr, Items, Kind, Prods};
use pbs_base::{Memory, Span, Word};
use pbs_names::Numbers;
use std::alloc::Global;

/// The use of a production of that number, and its place.
#[derive(Clone, Copy)]
pub struct Link {
    pub to: usize,
    pub span: Span,
}

/// Of each production those that it uses, the same without the places, and those that use it.
#[derive(Drop)]
pub struct Graph {
    pub uses: Vec<Vec<Link>>,
    pub targets: Vec<Vec<usize>>,
    pub users: Vec<Vec<usize>>,
}

fn push_link(numbers: &Numbers, name: &Word, span: Span, out: &mut Vec<Link>) -> Result<(), Memory>
    ensures { OnOk result (out.new.items ≡ out.old.items ++ link_to span (number_in numbers.now name.now)) }
{
    match numbers.find(name) {
        Some(to) => {
            out.push(Link { to, span })?;
            Ok(())
        }
        None => Ok(()),
    }
}

#[cycle(links)]
fn push_all(numbers: &Numbers, items: &Items, out: &mut Vec<Link>) -> Result<(), Memory>
    ensures { OnOk result (out.new.items ≡ out.old.items ++ links_in (number_in numbers.now) (inside_all items.now)) }
{
    for item in items.as_slice() {
        push_links(numbers, item, out)?;
    }
    Ok(())
}

/// Adds the uses in an expression.
#[cycle(links)]
fn push_links(numbers: &Numbers, expr: &Expr, out: &mut Vec<Link>) -> Result<(), Memory>
    ensures { OnOk result (out.new.items ≡ out.old.items ++ links_in (number_in numbers.now) (inside expr.now)) }
{
    match &expr.kind {
        Kind::Name(name) => push_link(numbers, name, expr.span, out),
        Kind::Seq(items) => push_all(numbers, items, out),
        Kind::Choice(items) => push_all(numbers, items, out),
        Kind::Star(body) => push_links(numbers, body, out),
        Kind::Plus(body) => push_links(numbers, body, out),
        Kind::Opt(body) => push_links(numbers, body, out),
        Kind::Hold(_, body) => push_links(numbers, body, out),
        Kind::Repeat(body, _, _) => push_links(numbers, body, out),
        Kind::Scope(body, trap, after) => {
            push_links(numbers, body, out)?;
            push_links(numbers, trap, out)?;
            push_links(numbers, after, out)
        }
        _ => Ok(()),
    }
}

fn uses_of(alloc: Global, prods: &Prods, numbers: &Numbers) -> Result<Vec<Vec<Link>>, Memory>
    ensures { IfOk result (λ uses. AreLinks (number_in numbers.now) prods.now uses.items) }
{
    let mut uses = Vec::new(alloc);
    for prod in prods.as_slice() {
        let mut links = Vec::new(alloc);
        push_links(numbers, &prod.body, &mut links)?;
        uses.push(links)?;
    }
    Ok(uses)
}

fn targets_of(alloc: Global, links: &[Link]) -> Result<Vec<usize>, Memory>
    ensures { IfOk result (λ targets. targets.items ≡ targets_of links.now) }
{
    let mut targets = Vec::new(alloc);
    for link in links {
        targets.push(link.to)?;
    }
    Ok(targets)
}

fn all_targets(alloc: Global, uses: &[Vec<Link>]) -> Result<Vec<Vec<usize>>, Memory>
    ensures { IfOk result (λ targets. AreTargets uses.now targets.items) }
{
    let mut targets = Vec::new(alloc);
    for links in uses {
        targets.push(targets_of(alloc, links.as_slice())?)?;
    }
    Ok(targets)
}

/// Adds a user of a production.
fn push_user(users: &mut Vec<Vec<usize>>, used: usize, user: usize) -> Result<(), Memory>
    ensures size { OnOk result (length users.new.items ≡ length users.old.items) }
    ensures kept { OnOk result ((k u : ℕ) → HasNext users.old.items k u → HasNext users.new.items k u) }
    ensures added { OnOk result (used < length users.old.items → HasNext users.new.items used user) }
    ensures only { OnOk result ((k u : ℕ) → HasNext users.new.items k u
        → HasNext users.old.items k u ⊎ ((k ≡ used) × (u ≡ user))) }
{
    if let Some(list) = users.get_mut(used) {
        list.push(user)?;
    }
    Ok(())
}

fn push_users(users: &mut Vec<Vec<usize>>, links: &[Link], user: usize) -> Result<(), Memory>
    ensures { OnOk result (AddsUsers links.now user users.old.items users.new.items) }
{
    for link in links {
        push_user(users, link.to, user)?;
    }
    Ok(())
}

fn empty_lists(alloc: Global, count: usize) -> Result<Vec<Vec<usize>>, Memory>
    ensures size { IfOk result (λ lists. length lists.items ≡ count) }
    ensures none { IfOk result (λ lists. (k u : ℕ) → HasNext lists.items k u → ⊥) }
{
    let mut lists = Vec::new(alloc);
    for _number in 0..count {
        lists.push(Vec::new(alloc))?;
    }
    Ok(lists)
}

fn users_of(alloc: Global, uses: &[Vec<Link>]) -> Result<Vec<Vec<usize>>, Memory>
    ensures { IfOk result (λ users. AreUsers uses.now users.items) }
{
    let mut users = empty_lists(alloc, uses.len())?;
    for (user, links) in uses.iter().enumerate() {
        push_users(&mut users, links.as_slice(), user)?;
    }
    Ok(users)
}

impl Graph {
    ghost use Rattle.pbs_names.specs.Naming.{prod_names};
    ghost use Rattle.pbs_names.specs.Numbers.{IsNumbering};
    ghost use Rattle.pbs_check.specs.inner.Links.{IsGraph};

    pub(crate) fn new(alloc: Global, prods: &Prods, numbers: &Numbers) -> Result<Graph, Memory>
        requires { IsNumbering (prod_names prods.now) numbers.now }
        ensures { IfOk result (IsGraph prods.now) }
    {
        let uses = uses_of(alloc, prods, numbers)?;
        let targets = all_targets(alloc, uses.as_slice())?;
        let users = users_of(alloc, uses.as_slice())?;
        Ok(Graph {
            uses,
            targets,
            users,
        })
    }
}
