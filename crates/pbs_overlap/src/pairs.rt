// Which places may stand together.
ghost use Rattle.std.specs.Prelude.{◌≡◌, ◌<◌, ◌≤◌, ◌*◌, length};

/// For each two places whether they are together.
#[derive(Drop)]
pub struct Pairs {
    places: usize,
    table: Vec<bool>,
    pub ghost sized: { length table.items ≡ places * places },
    pub ghost few: { places ≤ 4096 },
}

impl Pairs {
    ghost use Rattle.pbs_overlap.specs.Told.{says};

    pub(crate) fn new(places: usize, table: Vec<bool>) -> Pairs
        requires sized { length table.items ≡ places * places }
        requires few { places ≤ 4096 }
        ensures places { result.places ≡ places }
        ensures table { result.table ≡ table }
    {
        Pairs { places, table }
    }

    /// Whether the two places are together.
    pub fn together(&self, p: u32, q: u32) -> bool
        requires p { p < self.now.places }
        requires q { q < self.now.places }
        ensures { result ≡ says self.now p q }
    {
        self.table[p as usize * self.places + q as usize]
    }
}
