// A search for the pairs of places that double walks end in. The pair of p and q is the cell p * places + q of a table.
ghost use Rattle.std.specs.Prelude.{◌≡◌, ◌≤◌, ◌<◌, ◌+◌, ◌*◌, length, vec_len, OnOk, IfOk};
ghost use Rattle.pbs_overlap.specs.inner.Search.{first_at, fit_at, EachBelow, IsShaped, IsWork, Leads};
ghost use Rattle.pbs_overlap.specs.inner.Search.{Between, IsStart, Searched, Taken, TakenFrom, Visits};

use crate::joint::JointTerms;
use crate::steps::Step;
use pbs_base::Memory;
use std::alloc::Global;

/// The steps of a tree in the order of the places that they leave, and for each place the number of its first one.
#[derive(Drop)]
pub struct Plan {
    pub places: usize,
    pub steps: Vec<Step>,
    pub firsts: Vec<usize>,
    pub terms: JointTerms,
}

/// The cells that were reached: marked in the table, and in the queue.
#[derive(Drop)]
pub struct Reached {
    pub marks: Vec<bool>,
    pub queue: Vec<u32>,
}

impl Reached {
    // Marks a cell and puts it into the queue, unless it is marked already.
    fn visit(&mut self, cell: usize) -> Result<(), Memory>
        requires cell { cell < vec_len self.old.marks }
        requires size { vec_len self.old.marks ≤ 16777216 }
        requires work { IsWork self.old.marks.items self.old.queue.items }
        ensures { OnOk result (Visits (λ j. j ≡ cell) self.old self.new) }
    {
        if !self.marks[cell] {
            self.marks[cell] = true;
            self.queue.push(cell as u32)?;
        }
        Ok(())
    }
}

impl Plan {
    // The number of the first step from the place.
    #[inline]
    fn first(&self, place: usize) -> usize
        requires shape { IsShaped self.now }
        requires place { place ≤ self.now.places }
        ensures value { result ≡ first_at self.now place }
        ensures within { result ≤ length self.now.steps.items }
        ensures rises { place < self.now.places → result ≤ first_at self.now (place + 1) }
    {
        self.firsts[place]
    }

    // Whether the two steps can be taken together.
    #[inline]
    pub(crate) fn fit(&self, i: usize, j: usize) -> bool
        requires i { i < vec_len self.now.steps }
        requires j { j < vec_len self.now.steps }
        ensures { result ≡ fit_at self.now.steps.items i j }
    {
        let first = &self.steps[i];
        let second = &self.steps[j];
        !first.clashes(second) && !second.clashes(first)
    }

    // Visits the pair that the two steps lead to, where they can be taken together.
    #[inline]
    fn take(&self, i: usize, j: usize, reached: &mut Reached) -> Result<(), Memory>
        requires shape { IsShaped self.now }
        requires i { i < vec_len self.now.steps }
        requires j { j < vec_len self.now.steps }
        requires size { length reached.old.marks.items ≡ self.now.places * self.now.places }
        requires work { IsWork reached.old.marks.items reached.old.queue.items }
        ensures { OnOk result (Visits (Taken self.now i j) reached.old reached.new) }
    {
        if self.fit(i, j) {
            let cell = self.steps[i].to as usize * self.places + self.steps[j].to as usize;
            reached.visit(cell)?;
        }
        Ok(())
    }

    // Visits the pairs that step i and those from place q lead to.
    fn take_with(&self, i: usize, q: usize, reached: &mut Reached) -> Result<(), Memory>
        requires shape { IsShaped self.now }
        requires i { i < vec_len self.now.steps }
        requires q { q < self.now.places }
        requires size { length reached.old.marks.items ≡ self.now.places * self.now.places }
        requires work { IsWork reached.old.marks.items reached.old.queue.items }
        ensures { OnOk result (Visits (Between (first_at self.now q) (first_at self.now (q + 1)) (Taken self.now i))
            reached.old reached.new) }
    {
        for j in self.first(q)..self.first(q + 1) {
            self.take(i, j, reached)?;
        }
        Ok(())
    }

    // Visits the pairs that the steps from places p and q lead to.
    fn take_all(&self, p: usize, q: usize, reached: &mut Reached) -> Result<(), Memory>
        requires shape { IsShaped self.now }
        requires p { p < self.now.places }
        requires q { q < self.now.places }
        requires size { length reached.old.marks.items ≡ self.now.places * self.now.places }
        requires work { IsWork reached.old.marks.items reached.old.queue.items }
        ensures { OnOk result (Visits (TakenFrom self.now p q) reached.old reached.new) }
    {
        for i in self.first(p)..self.first(p + 1) {
            self.take_with(i, q, reached)?;
        }
        Ok(())
    }

    // Visits the pairs that a joint step leads to from this one.
    fn expand(&self, cell: usize, reached: &mut Reached) -> Result<(), Memory>
        requires shape { IsShaped self.now }
        requires cell { cell < self.now.places * self.now.places }
        requires size { length reached.old.marks.items ≡ self.now.places * self.now.places }
        requires work { IsWork reached.old.marks.items reached.old.queue.items }
        ensures { OnOk result (Visits (Leads self.now cell) reached.old reached.new) }
    {
        let p = cell / self.places;
        let q = cell % self.places;
        if self.terms.open_together(p, q) {
            self.take_all(p, q, reached)?;
        }
        Ok(())
    }

    // Visits the pairs of first places.
    fn begin(&self, starts: &[u32], reached: &mut Reached) -> Result<(), Memory>
        requires shape { IsShaped self.now }
        requires few { length starts.now ≤ 4096 }
        requires starts { EachBelow self.now.places starts.now }
        requires size { length reached.old.marks.items ≡ self.now.places * self.now.places }
        requires work { IsWork reached.old.marks.items reached.old.queue.items }
        ensures { OnOk result (Visits
            (Between 0 (length starts.now * length starts.now) (IsStart self.now.places starts.now))
            reached.old reached.new) }
    {
        let count = starts.len();
        for k in 0..count * count {
            let cell = starts[k / count] as usize * self.places + starts[k % count] as usize;
            reached.visit(cell)?;
        }
        Ok(())
    }

    /// All pairs that double walks end in.
    pub(crate) fn search(&self, alloc: Global, starts: &[u32]) -> Result<Reached, Memory>
        requires shape { IsShaped self.now }
        requires few { length starts.now ≤ 4096 }
        requires starts { EachBelow self.now.places starts.now }
        ensures { IfOk result (λ reached. Searched self.now starts.now reached) }
    {
        let mut reached = Reached {
            marks: vec![in alloc; false; self.places * self.places]?,
            queue: Vec::new(alloc),
        };
        self.begin(starts, &mut reached)?;
        let mut next: usize = 0;
        while next < reached.queue.len() {
            let cell = reached.queue[next] as usize;
            self.expand(cell, &mut reached)?;
            next += 1;
        }
        Ok(reached)
    }
}
