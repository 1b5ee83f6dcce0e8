// Places of a list that a command writes to.
ghost use Rattle.std.specs.Prelude.{◌≡◌};
ghost use Rattle.case_files.specs.Places.{is_written};

// Every `stride`-th place from the first to the last.
#[derive(Clone, Copy)]
pub struct Places {
    pub first: u64,
    pub last: u64,
    pub stride: u64,
}

impl Places {
    // A stride of 0 reaches no place.
    pub fn has(self, place: u64) -> bool
        ensures { result ≡ is_written self.first self.last self.stride place }
    {
        self.first <= place
            && place <= self.last
            && self.stride != 0
            && (place - self.first) % self.stride == 0
    }
}
