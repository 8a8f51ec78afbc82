// How leaders are put into groups.
ghost use Rattle.std.specs.Prelude.{◌≡◌, ◌<◌, ℕ, Contains, IfOk, OnOk};
ghost use Rattle.pbs_ast.specs.Trees.{Tree};
ghost use Rattle.pbs_overlap.specs.Told.{TellsTogether};
ghost use Rattle.pbs_codes.specs.Groups.{Grouped, Joins};
ghost use Rattle.pbs_codes.specs.inner.Rooms.{AreWithin, IsFirstRoom, has_room, meets};

use net_core::{GroupList, Places};
use pbs_base::{Listed, Memory};
use pbs_overlap::Pairs;
use std::alloc::Global;

// The most members of a group.
const MOST_MEMBERS: usize = 7;

// Whether some member of the group is together with the place.
fn meets(pairs: &Pairs, group: &[u32], place: u32) -> bool
    requires place { place < pairs.now.places }
    requires members { (q : ℕ) → Contains group.now q → q < pairs.now.places }
    ensures { result ≡ meets pairs.now group.now place }
{
    for member in group {
        if pairs.together(*member, place) {
            return true;
        }
    }
    false
}

fn has_room(pairs: &Pairs, group: &[u32], place: u32) -> bool
    requires place { place < pairs.now.places }
    requires members { (q : ℕ) → Contains group.now q → q < pairs.now.places }
    ensures { result ≡ has_room pairs.now group.now place }
{
    group.len() < MOST_MEMBERS && !meets(pairs, group, place)
}

// The number of the first group that has room for the place.
fn first_room(pairs: &Pairs, groups: &[Places], place: u32) -> Option<usize>
    requires place { place < pairs.now.places }
    requires members { AreWithin pairs.now groups.now }
    ensures { IsFirstRoom pairs.now groups.now place result }
{
    for n in 0..groups.len() {
        if has_room(pairs, groups[n].as_slice(), place) {
            return Some(n);
        }
    }
    None
}

// Puts the place into the first group that has room for it, and where there is none into a new one.
fn join(alloc: Global, pairs: &Pairs, place: u32, groups: &mut Vec<Places>) -> Result<(), Memory>
    requires place { place < pairs.now.places }
    requires members { AreWithin pairs.now groups.old.items }
    ensures members { OnOk result (AreWithin pairs.now groups.new.items) }
    ensures joins { OnOk result ((main : Tree) → TellsTogether main pairs.now
        → Joins main place groups.old.items groups.new.items) }
{
    match first_room(pairs, groups, place) {
        Some(n) => groups[n].push(place)?,
        None => {
            let mut group = Listed::new(alloc);
            group.push(place)?;
            groups.push(group)?;
        }
    }
    Ok(())
}

// The groups of the leaders, taken in their order.
fn grouped(alloc: Global, pairs: &Pairs, leaders: &[u32]) -> Result<Vec<Places>, Memory>
    requires { (q : ℕ) → Contains leaders.now q → q < pairs.now.places }
    ensures { IfOk result (λ groups. (main : Tree) → TellsTogether main pairs.now
        → Grouped main leaders.now groups.items) }
{
    let mut groups = Vec::new(alloc);
    for leader in leaders {
        join(alloc, pairs, *leader, &mut groups)?;
    }
    Ok(groups)
}

// The groups as a list.
fn listed(alloc: Global, groups: Vec<Places>) -> Result<GroupList, Memory>
    ensures { IfOk result (λ list. list ≡ groups.items) }
{
    let mut list = Listed::new(alloc);
    for group in groups {
        list.push(group)?;
    }
    Ok(list)
}

/// The groups of the leaders, taken in their order.
pub(crate) fn group_all(alloc: Global, pairs: &Pairs, leaders: &[u32]) -> Result<GroupList, Memory>
    requires { (q : ℕ) → Contains leaders.now q → q < pairs.now.places }
    ensures { IfOk result (λ groups. (main : Tree) → TellsTogether main pairs.now
        → Grouped main leaders.now groups) }
{
    let groups = grouped(alloc, pairs, leaders)?;
    listed(alloc, groups)
}
