// An order in which each number stands after those to which it leads, as far as no circle forbids it. The order saves
// time and decides nothing: what is found in it is proved of any order.
use pbs_base::Memory;
use std::alloc::Global;

#[derive(Clone, Copy)]
enum Step {
    Enter(usize),
    Leave(usize),
}

/// A walk in depth: what was entered, the steps still to take, the last first, and what was left, in order.
#[derive(Drop)]
struct Walk {
    entered: Vec<bool>,
    steps: Vec<Step>,
    order: Vec<usize>,
}

fn enter_all(steps: &mut Vec<Step>, list: &[usize]) -> Result<(), Memory> {
    for number in list {
        steps.push(Step::Enter(*number))?;
    }
    Ok(())
}

impl Walk {
    fn new(alloc: Global, count: usize) -> Result<Walk, Memory> {
        let mut steps = Vec::new(alloc);
        for number in 0..count {
            steps.push(Step::Enter(number))?;
        }
        Ok(Walk {
            entered: vec![in alloc; false; count]?,
            steps,
            order: Vec::new(alloc),
        })
    }

    fn enter(&mut self, number: usize, list: &[usize]) -> Result<(), Memory> {
        if number < self.entered.len() && !self.entered[number] {
            self.entered[number] = true;
            self.steps.push(Step::Leave(number))?;
            enter_all(&mut self.steps, list)?;
        }
        Ok(())
    }

    fn take(&mut self, step: Step, lists: &[Vec<usize>]) -> Result<(), Memory> {
        match step {
            Step::Leave(number) => {
                self.order.push(number)?;
                Ok(())
            }
            Step::Enter(number) => match lists.get(number) {
                Some(list) => self.enter(number, list.as_slice()),
                None => Ok(()),
            },
        }
    }
}

/// How many steps a walk over the lists takes.
fn count_steps(lists: &[Vec<usize>]) -> usize {
    let mut count = 0usize;
    for list in lists {
        count = count.saturating_add(list.len()).saturating_add(2);
    }
    count
}

/// The numbers of the lists, each after those in its list.
pub(crate) fn order_of(alloc: Global, lists: &[Vec<usize>]) -> Result<Vec<usize>, Memory> {
    let mut walk = Walk::new(alloc, lists.len())?;
    for _step in 0..count_steps(lists) {
        let Some(step) = walk.steps.pop() else {
            return Ok(walk.order);
        };
        walk.take(step, lists)?;
    }
    Ok(walk.order)
}
