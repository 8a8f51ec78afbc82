// The leaders of places: of those that may stand and have one signature, the lowest.
ghost use Rattle.std.specs.Prelude.{◌≡◌, ◌<◌, ◌≤◌, ◌+◌, length, IfOk, OnOk};
ghost use Rattle.pbs_codes.specs.inner.Leading.{IsLed};

use crate::signature::{Signature, Signatures};
use pbs_base::Memory;
use pbs_overlap::Pairs;
use std::alloc::Global;

/// The places that may not stand, the leader of each place, and the places that lead, with their signatures.
#[derive(Drop)]
pub struct Leading {
    pub never: Vec<u32>,
    pub leaders: Vec<u32>,
    pub firsts: Vec<u32>,
    pub seen: Signatures,
}

impl Leading {
    // Takes the next place.
    fn take(
        &mut self,
        alloc: Global,
        pairs: &Pairs,
        signatures: &[Signature],
        place: u32,
    ) -> Result<(), Memory>
        requires place { place < pairs.now.places }
        requires signatures { length signatures.now ≡ pairs.now.places }
        requires led { IsLed pairs.now signatures.now place self.old }
        ensures { OnOk result (IsLed pairs.now signatures.now (place + 1) self.new) }
    {
        let signature = &signatures[place as usize];
        if !pairs.together(place, place) {
            self.never.push(place)?;
            self.leaders.push(place)?;
            return Ok(());
        }
        match self.seen.find(signature) {
            Some(n) => {
                let leader = self.firsts[n];
                self.leaders.push(leader)?;
            }
            None => {
                self.seen.add(signature.copy(alloc)?)?;
                self.firsts.push(place)?;
                self.leaders.push(place)?;
            }
        }
        Ok(())
    }
}

/// The leaders of the places that have these signatures.
pub(crate) fn find_leaders(
    alloc: Global,
    pairs: &Pairs,
    signatures: &[Signature],
) -> Result<Leading, Memory>
    requires signatures { length signatures.now ≡ pairs.now.places }
    requires few { length signatures.now ≤ 4096 }
    ensures { IfOk result (IsLed pairs.now signatures.now (length signatures.now)) }
{
    let mut leading = Leading {
        never: Vec::new(alloc),
        leaders: Vec::new(alloc),
        firsts: Vec::new(alloc),
        seen: Signatures::new(alloc),
    };
    for place in 0..signatures.len() {
        leading.take(alloc, pairs, signatures, place as u32)?;
    }
    Ok(leading)
}
