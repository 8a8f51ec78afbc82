// Named files in memory, with two slots: what the shelves in memory share.
ghost use Rattle.std.specs.Prelude.{◌≡◌, ◌+◌, ◌-◌, ◌<◌, ◌≤◌, min, [], ◌∷◌, ◌++◌, length, take};
ghost use Rattle.std.specs.Prelude.{drop, true, false, IfSome, IfNone, OnOk, OnErr, bytes_eq};
ghost use Rattle.std.specs.Prelude.{string_bytes, vec_len};
ghost use Rattle.std.specs.List.{position_from};
ghost use Rattle.pbs_io.specs.Outside.{content_of, has_file, with_file};

use pbs_base::Memory;
use std::alloc::Global;

// A file of a shelf in memory.
#[derive(Drop)]
pub(crate) struct StoredFile {
    name: String,
    bytes: Vec<u8>,
}

// What stands in a slot: a file's number, and how many of its bytes were read.
#[derive(Clone, Copy)]
pub(crate) struct Place {
    stands: bool,
    file: usize,
    at: usize,
}

#[derive(Drop)]
pub(crate) struct Cabinet {
    files: Vec<StoredFile>,
    slots: [Place; 2],
}

// A slot in which no file stands.
const EMPTY: Place = Place {
    stands: false,
    file: 0,
    at: 0,
};

impl Cabinet {
    ghost use Rattle.pbs_io.specs.Cabinet.{entries, bytes_at, place_in, left_at, empty_place, all_empty};

    pub(crate) fn new(alloc: Global) -> Cabinet
        ensures files { result.files.items ≡ [] }
        ensures slots { result.slots ≡ all_empty }
    {
        Cabinet {
            files: Vec::new(alloc),
            slots: [EMPTY, EMPTY],
        }
    }

    // The number of the file with this name.
    pub(crate) fn find(&self, name: &str) -> Option<usize>
        ensures there { IfSome result (λ i. (has_file (entries self.now.files.items) name.now ≡ true) ×
            (bytes_at self.now.files.items i ≡ content_of (entries self.now.files.items) name.now)) }
        ensures absent { IfNone result ((has_file (entries self.now.files.items) name.now ≡ false) ×
            (content_of (entries self.now.files.items) name.now ≡ [])) }
    {
        self.index_of(name)
    }

    // Adds a file, or puts other bytes under a name that is there. Then no file stands in a slot.
    #[tactic(auto, using(crate::proofs::CabinetLemmas::entries_set, crate::proofs::CabinetLemmas::entries_more))]
    pub(crate) fn add(&mut self, alloc: Global, name: &str, bytes: &[u8]) -> Result<(), Memory>
        ensures files { OnOk result (entries self.new.files.items ≡ with_file (entries self.old.files.items) name.now
            bytes.now) }
        ensures slots { OnOk result (self.new.slots ≡ all_empty) }
        ensures err { OnErr result ((self.new.files.items ≡ self.old.files.items) × (self.new.slots ≡ self.old.slots)) }
    {
        let Ok(bytes) = Vec::from_slice(alloc, bytes) else {
            return Err(Memory);
        };
        match self.index_of(name) {
            Some(index) => {
                self.files[index].bytes = bytes;
                self.slots = [EMPTY, EMPTY];
                Ok(())
            }
            None => {
                let Ok(name) = String::from_str(alloc, name) else {
                    return Err(Memory);
                };
                let Ok(()) = self.store(StoredFile { name, bytes }) else {
                    return Err(Memory);
                };
                self.slots = [EMPTY, EMPTY];
                Ok(())
            }
        }
    }

    fn store(&mut self, file: StoredFile) -> Result<(), Memory>
        ensures files { OnOk result (self.new.files.items ≡ self.old.files.items ++ file ∷ []) }
        ensures err { OnErr result (self.new.files.items ≡ self.old.files.items) }
        ensures slots { self.new.slots ≡ self.old.slots }
    {
        if self.files.push(file).is_err() {
            Err(Memory)
        } else {
            Ok(())
        }
    }

    fn index_of(&self, name: &str) -> Option<usize>
        ensures within { IfSome result (λ i. i < vec_len self.now.files) }
        ensures value { result ≡ position_from (λ file. bytes_eq (string_bytes file.name) name.now) 0
            self.now.files.items }
    {
        self.files
            .iter()
            .position(|file| file.name.as_str() == name)
    }

    // Puts the slot at the beginning of a file; a number past the last is an empty file.
    pub(crate) fn open(&mut self, slot: usize, file: usize)
        requires { slot < 2 }
        ensures files { self.new.files ≡ self.old.files }
        ensures place { place_in self.new.slots slot ≡ record { stands = true; file = file; at = 0 } }
        ensures other { place_in self.new.slots (1 - slot) ≡ place_in self.old.slots (1 - slot) }
    {
        self.slots[slot] = Place {
            stands: true,
            file,
            at: 0,
        };
    }

    // Puts an empty file into the slot.
    pub(crate) fn open_empty(&mut self, slot: usize)
        requires { slot < 2 }
        ensures files { self.new.files ≡ self.old.files }
        ensures left { left_at self.old.files.items (place_in self.new.slots slot) ≡ [] }
        ensures stands { (place_in self.new.slots slot).stands ≡ true }
        ensures other { place_in self.new.slots (1 - slot) ≡ place_in self.old.slots (1 - slot) }
    {
        let file = self.files.len();
        self.slots[slot] = Place {
            stands: true,
            file,
            at: 0,
        };
    }

    // Leaves no file in the slot.
    pub(crate) fn close(&mut self, slot: usize)
        requires { slot < 2 }
        ensures files { self.new.files ≡ self.old.files }
        ensures place { place_in self.new.slots slot ≡ empty_place }
        ensures other { place_in self.new.slots (1 - slot) ≡ place_in self.old.slots (1 - slot) }
    {
        self.slots[slot] = EMPTY;
    }

    pub(crate) fn stands(&self, slot: usize) -> bool
        requires { slot < 2 }
        ensures { result ≡ (place_in self.now.slots slot).stands }
    {
        self.slots[slot].stands
    }

    // Moves the next bytes, at most `step`, into the front of the buffer.
    pub(crate) fn read(&mut self, slot: usize, buffer: &mut [u8], step: usize) -> usize
        requires slot_in { slot < 2 }
        requires room { 0 < length buffer.old }
        requires step_in { 0 < step }
        ensures bound { (result ≤ length buffer.new) × (result ≡ length (take result buffer.new)) }
        ensures whole { left_at self.old.files.items (place_in self.old.slots slot) ≡ take result buffer.new ++
            left_at self.old.files.items (place_in self.new.slots slot) }
        ensures end { result ≡ 0 → left_at self.old.files.items (place_in self.old.slots slot) ≡ [] }
        ensures most { result ≡ min step (min (length buffer.old)
            (length (left_at self.old.files.items (place_in self.old.slots slot)))) }
        ensures files { self.new.files ≡ self.old.files }
        ensures stands { (place_in self.new.slots slot).stands ≡ (place_in self.old.slots slot).stands }
        ensures other { place_in self.new.slots (1 - slot) ≡ place_in self.old.slots (1 - slot) }
    {
        self.advance(slot, buffer, step)
    }

    fn advance(&mut self, slot: usize, buffer: &mut [u8], step: usize) -> usize
        requires { slot < 2 }
        ensures bound { (result ≤ length buffer.new) × (result ≡ length (take result buffer.new)) }
        ensures most { result ≡ min step (min (length buffer.old)
            (length (left_at self.old.files.items (place_in self.old.slots slot)))) }
        ensures files { self.new.files ≡ self.old.files }
        ensures moved { take result buffer.new ≡ take result
            (left_at self.old.files.items (place_in self.old.slots slot)) }
        ensures left { left_at self.old.files.items (place_in self.new.slots slot) ≡ drop result
            (left_at self.old.files.items (place_in self.old.slots slot)) }
        ensures stands { (place_in self.new.slots slot).stands ≡ (place_in self.old.slots slot).stands }
        ensures other { place_in self.new.slots (1 - slot) ≡ place_in self.old.slots (1 - slot) }
    {
        let place = self.slots[slot];
        let bytes = self.left(place);
        let count = step.min(buffer.len().min(bytes.len()));
        buffer[..count].copy_from_slice(&bytes[..count]);
        let at = place.at.saturating_add(count);
        self.slots[slot] = Place {
            stands: place.stands,
            file: place.file,
            at,
        };
        count
    }

    // What is left to read from a place.
    fn left(&self, place: Place) -> &[u8]
        ensures { result.now ≡ left_at self.now.files.items place }
    {
        if !place.stands {
            return &[];
        }
        match self.files.get(place.file) {
            Some(file) if place.at < file.bytes.len() => &file.bytes[place.at..],
            _ => &[],
        }
    }
}
