// Inner: an index of kept numbers. A place is entered as itself plus 1, so that 0 says none. Some have a `requires`, so only proved code may
// call them.
ghost use Rattle.std.specs.Prelude.{◌≡◌, ◌+◌, ◌<◌, get_or, set};
ghost use Rattle.marks.specs.Chains.{bucket_of, entry, Chained};

// Numbers of places, each linked to the last place before it whose number falls in the same bucket: room for one place more than the most states.
// Memory is fixed, so a link is two bytes, with 0 for none, and an array of a link and a number for each place would take more.
#[derive(Drop)]
pub struct Index {
    heads: [u16; 1021],
    links: [u16; 4097],
    marks: [u32; 4097],
}

impl Index {
    // The index of no places.
    pub fn new() -> Index
        ensures { Chained result 0 }
    {
        Index {
            heads: [0; 1021],
            links: [0; 4097],
            marks: [0; 4097],
        }
    }

    // The last place whose number shares a bucket with this one. std has no `From` of a u32 for usize.
    pub fn last_with(&self, number: u32) -> Option<usize>
        ensures { entry result ≡ get_or self.now.heads (bucket_of number) 0 }
    {
        usize::from(self.heads[number as usize % 1021]).checked_sub(1)
    }

    // The last place before s that shares its bucket.
    pub fn earlier(&self, s: usize) -> Option<usize>
        requires { s < 4097 }
        ensures { entry result ≡ get_or self.now.links s 0 }
    {
        usize::from(self.links[s]).checked_sub(1)
    }

    // The number of place s.
    pub fn number_of(&self, s: usize) -> u32
        requires { s < 4097 }
        ensures { result ≡ get_or self.now.marks s 0 }
    {
        self.marks[s]
    }

    // Adds place `held` with its number: it is the last of its bucket.
    pub fn chain(&mut self, held: usize, number: u32)
        requires { Chained self.old held × (held < 4097) }
        ensures { Chained self.new (held + 1) × (self.new.marks ≡ set self.old.marks held number) × (get_or self.new.marks held 0 ≡ number) }
    {
        let bucket = number as usize % 1021;
        self.links[held] = self.heads[bucket];
        self.heads[bucket] = (held + 1) as u16;
        self.marks[held] = number;
    }
}
