// The entries of a trial file, one after another.
ghost use Rattle.std.specs.Prelude.{◌≡◌, true, ◌≤◌, ◌-◌};
ghost use Rattle.std.specs.Iterator.{at_most};
ghost use Rattle.replay.specs.Files.{entry_count, body_at, good_file};

use crate::files::good_file;

// The number of an entry, the port it arrives at, and its body.
#[derive(Clone, Copy)]
pub struct Entry<'a> {
    pub index: usize,
    pub port: u8,
    pub body: &'a [u8],
}

// A trial file from an entry on, whose body stands at a place of it.
#[derive(Drop)]
pub struct Entries<'a> {
    pub file: &'a [u8],
    pub index: usize,
    pub at: usize,
    ghost good: { good_file file.now ≡ true },
    ghost within: { index ≤ entry_count file.now },
    ghost placed: { at ≡ body_at file.now index },
}

impl<'a> Iterator for Entries<'a> {
    type Item = Entry<'a>;

    ghost use Rattle.replay.specs.Entries.{GivesEntry};

    ghost next_gives = { GivesEntry };

    ghost remaining = { λ s. at_most (entry_count s.file.now - s.index) };

    fn next(&mut self) -> Option<Entry<'a>> {
        let file = self.file;
        if self.index == numbers::read_at(file, 0, 2) as usize {
            return None;
        }
        let index = self.index;
        let entry = 2 + index * 3;
        let at = self.at;
        let end = at + numbers::read_at(file, entry + 1, 2) as usize;
        *self = Entries {
            file,
            index: index + 1,
            at: end,
        };
        Some(Entry {
            index,
            port: file[entry],
            body: &file[at..end],
        })
    }
}

impl<'a> Entries<'a> {
    ghost use Rattle.replay.specs.Entries.{FirstOf};

    // The entries of a file, if it is a trial file.
    pub fn of(file: &'a [u8]) -> Option<Entries<'a>>
        ensures { FirstOf file.now result }
    {
        if !good_file(file) {
            return None;
        }
        Some(Entries {
            file,
            index: 0,
            at: 2 + numbers::read_at(file, 0, 2) as usize * 3,
        })
    }
}
