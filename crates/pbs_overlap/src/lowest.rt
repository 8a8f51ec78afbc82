// The lowest scope that a joint step refuses.
ghost use Rattle.std.specs.Prelude.{◌≡◌, ◌<◌, ◌*◌, ◌&&◌, length, vec_len};
ghost use Rattle.pbs_overlap.specs.inner.Joints.{joint_at};
ghost use Rattle.pbs_overlap.specs.inner.Search.{marked_at, Between, EachFromBelow, IsShaped};
ghost use Rattle.pbs_overlap.specs.inner.Lowest.{lower_of, refused_at, IsLowest, RefusesWith};

use crate::search::{Plan, Reached};

// The lower one of two scopes, if any.
fn lower(first: Option<u32>, second: Option<u32>) -> Option<u32>
    ensures { result ≡ lower_of first second }
{
    match (first, second) {
        (Some(a), Some(b)) => Some(a.min(b)),
        (Some(a), None) => Some(a),
        (None, b) => b,
    }
}

impl Plan {
    // Whether the pair was reached, and its terms can be true in one vector.
    fn leads_on(&self, reached: &Reached, p: usize, q: usize) -> bool
        requires shape { IsShaped self.now }
        requires p { p < self.now.places }
        requires q { q < self.now.places }
        requires size { length reached.now.marks.items ≡ self.now.places * self.now.places }
        ensures { result ≡ (marked_at self.now reached.now p q && joint_at self.now.terms p q) }
    {
        reached.marks[p * self.places + q] && self.terms.open_together(p, q)
    }

    // The scope that steps i and j refuse, from a pair that was reached.
    fn refused_by(&self, reached: &Reached, i: usize, j: usize) -> Option<u32>
        requires shape { IsShaped self.now }
        requires froms { EachFromBelow self.now }
        requires i { i < vec_len self.now.steps }
        requires j { j < vec_len self.now.steps }
        requires size { length reached.now.marks.items ≡ self.now.places * self.now.places }
        ensures { result ≡ refused_at self.now reached.now i j }
    {
        let scope = self.steps[i].refused(&self.steps[j])?;
        let p = self.steps[i].from as usize;
        let q = self.steps[j].from as usize;
        if self.leads_on(reached, p, q) && self.fit(i, j) {
            Some(scope)
        } else {
            None
        }
    }

    // The lowest scope that step j and some other one refuse, where j enters it.
    fn refused_with(&self, reached: &Reached, j: usize) -> Option<u32>
        requires shape { IsShaped self.now }
        requires froms { EachFromBelow self.now }
        requires j { j < vec_len self.now.steps }
        requires size { length reached.now.marks.items ≡ self.now.places * self.now.places }
        ensures { IsLowest (RefusesWith self.now reached.now j) result }
    {
        let mut lowest = None;
        if self.steps[j].enters.is_none() {
            return lowest;
        }
        for i in 0..self.steps.len() {
            lowest = lower(lowest, self.refused_by(reached, i, j));
        }
        lowest
    }

    /// The lowest scope that a joint step refuses.
    pub(crate) fn lowest_refused(&self, reached: &Reached) -> Option<u32>
        requires shape { IsShaped self.now }
        requires froms { EachFromBelow self.now }
        requires size { length reached.now.marks.items ≡ self.now.places * self.now.places }
        ensures { IsLowest (Between 0 (length self.now.steps.items) (RefusesWith self.now reached.now)) result }
    {
        let mut lowest = None;
        for j in 0..self.steps.len() {
            lowest = lower(lowest, self.refused_with(reached, j));
        }
        lowest
    }
}
