// A search along lists of numbers, for all to which one of them leads.
ghost use Rattle.std.specs.Prelude.{◌≡◌, ◌<◌, ◌↔◌, ℕ, IsTrue, Some, length, slice_get, Contains, IfOk, OnOk};
ghost use Rattle.pbs_check.specs.inner.Links.{HasNext};
ghost use Rattle.pbs_check.specs.inner.Searching.{Grows, IsMarked, Spreads};

use pbs_base::Memory;
use std::alloc::Global;

/// Of each number the one from which it was reached last, and what this search reached, in order.
#[derive(Drop)]
pub struct Search {
    marks: Vec<Option<usize>>,
    reached: Vec<usize>,
}

/// Whether the number is there and has that label.
pub(crate) fn has_label(labels: &[Option<usize>], number: usize, label: Option<usize>) -> bool
    ensures { IsTrue result ↔ (slice_get labels.now number ≡ Some label) }
{
    number < labels.len() && labels[number] == label
}

fn mark(search: &mut Search, root: usize, number: usize) -> Result<(), Memory>
    ensures grows { OnOk result (Grows root (λ k. k ≡ number) search.old search.new) }
    ensures marked { OnOk result (number < length search.old.marks.items
        → IsMarked search.new.marks.items root number) }
{
    if number < search.marks.len() && search.marks[number] != Some(root) {
        search.marks[number] = Some(root);
        search.reached.push(number)?;
    }
    Ok(())
}

fn mark_labelled(
    search: &mut Search,
    labels: &[Option<usize>],
    label: Option<usize>,
    root: usize,
    number: usize,
) -> Result<(), Memory>
    ensures grows { OnOk result (Grows root (λ k. (k ≡ number) × (slice_get labels.now k ≡ Some label))
        search.old search.new) }
    ensures marked { OnOk result (slice_get labels.now number ≡ Some label
        → number < length search.old.marks.items → IsMarked search.new.marks.items root number) }
{
    if has_label(labels, number, label) {
        mark(search, root, number)
    } else {
        Ok(())
    }
}

fn mark_all(
    search: &mut Search,
    list: &[usize],
    labels: &[Option<usize>],
    label: Option<usize>,
    root: usize,
) -> Result<(), Memory>
    ensures grows { OnOk result (Grows root (λ k. Contains list.now k × (slice_get labels.now k ≡ Some label))
        search.old search.new) }
    ensures marked { OnOk result ((k : ℕ) → Contains list.now k → slice_get labels.now k ≡ Some label
        → k < length search.old.marks.items → IsMarked search.new.marks.items root k) }
{
    for number in list {
        mark_labelled(search, labels, label, root, *number)?;
    }
    Ok(())
}

/// Marks what follows a number.
fn visit(
    search: &mut Search,
    lists: &[Vec<usize>],
    labels: &[Option<usize>],
    label: Option<usize>,
    root: usize,
    number: usize,
) -> Result<(), Memory>
    ensures grows { OnOk result (Grows root (λ k. HasNext lists.now number k × (slice_get labels.now k ≡ Some label))
        search.old search.new) }
    ensures marked { OnOk result ((k : ℕ) → HasNext lists.now number k → slice_get labels.now k ≡ Some label
        → k < length search.old.marks.items → IsMarked search.new.marks.items root k) }
{
    match lists.get(number) {
        Some(list) => mark_all(search, list.as_slice(), labels, label, root),
        None => Ok(()),
    }
}

/// Marks all to which the root leads through numbers of that label.
pub(crate) fn spread(
    alloc: Global,
    lists: &[Vec<usize>],
    labels: &[Option<usize>],
    label: Option<usize>,
    root: usize,
    marks: Vec<Option<usize>>,
) -> Result<Vec<Option<usize>>, Memory>
    requires there { root < length marks.items }
    requires size { length labels.now ≡ length marks.items }
    requires none { (k : ℕ) → IsMarked marks.items root k → ⊥ }
    ensures { IfOk result (λ new. Spreads lists.now labels.now label root marks.items new.items) }
{
    let mut search = Search {
        marks,
        reached: Vec::new(alloc),
    };
    mark(&mut search, root, root)?;
    let mut next = 0;
    while next < search.reached.len() {
        let found = search.reached[next];
        visit(&mut search, lists, labels, label, root, found)?;
        next += 1;
    }
    Ok(search.marks)
}
