// What a line of a case file is.
ghost use Rattle.std.specs.Prelude.{◌≡◌};

// An empty line and a comment are passed over; a title is printed as it is.
#[derive(Clone, Copy, PartialEq, Eq)]
pub enum Kind {
    PassedOver,
    Title,
    Command,
}

impl Kind {
    ghost use Rattle.case_files.specs.Kinds.{kind_of};

    pub fn of(line: &[u8]) -> Kind
        ensures { result ≡ kind_of line.now }
    {
        match line.first() {
            None => Kind::PassedOver,
            Some(b'#') => Kind::PassedOver,
            Some(b'=') => Kind::Title,
            Some(_) => Kind::Command,
        }
    }
}
