// Whether a frame file is good, and how long its steps are.
ghost use Rattle.std.specs.Prelude.{◌≡◌, ◌+◌, ◌≤◌, length, get_or};
ghost use Rattle.framing.specs.Files.{size_at, good_split, good_steps, good_file};
ghost use Rattle.framing.specs.Kinds.{number_of, IsKind, IsGood};

// What a step does: a frame is joined, or a message is split.
#[derive(Clone, Copy)]
pub(crate) enum Kind {
    Join,
    Split,
}

impl Kind {
    // The kind of a step with this first byte.
    pub(crate) fn of(byte: u8) -> Option<Kind>
        ensures { IsKind result byte }
    {
        match byte {
            1 => Some(Kind::Join),
            2 => Some(Kind::Split),
            _ => None,
        }
    }

    // How many bytes such a step at a place has.
    pub(crate) fn size(self, file: &[u8], at: usize) -> usize
        requires { (length file.now ≤ 65536) × (get_or file.now at 0 ≡ number_of self) }
        ensures { result ≡ size_at file.now at }
    {
        match self {
            Kind::Join => 14,
            Kind::Split => 33 + numbers::read_at(file, at + 29, 2) as usize,
        }
    }
}

pub(crate) fn good(file: &[u8]) -> bool
    ensures { result ≡ good_file file.now }
{
    if 65536 < file.len() {
        return false;
    }
    if file.len() < 1 {
        return false;
    }
    let at = 1 + (file[0] as usize) * 10;
    if file.len() < at + 2 {
        return false;
    }
    let count = numbers::read_at(file, at, 2) as usize;
    if 1000 < count {
        return false;
    }
    good_steps(file, count, at + 2)
}

fn good_steps(file: &[u8], count: usize, start: usize) -> bool
    requires { (start ≤ length file.now) × (length file.now ≤ 65536) }
    ensures { result ≡ good_steps count file.now start }
{
    let mut at = start;
    for _k in 0..count {
        let Some(kind) = good_step(file, at) else {
            return false;
        };
        at += kind.size(file, at);
    }
    at == file.len()
}

// The kind of the step at a place, where it is a good one.
fn good_step(file: &[u8], at: usize) -> Option<Kind>
    requires { (at ≤ length file.now) × (length file.now ≤ 65536) }
    ensures { IsGood result file.now at }
{
    if file.len() < at + 14 {
        return None;
    }
    let kind = Kind::of(file[at])?;
    match kind {
        Kind::Join => Some(kind),
        Kind::Split => good_split(file, at).then_some(kind),
    }
}

fn good_split(file: &[u8], at: usize) -> bool
    requires { (at ≤ length file.now) × (length file.now ≤ 65536) }
    ensures { result ≡ good_split file.now at }
{
    if file.len() < at + 33 {
        return false;
    }
    if 1 < file[at + 11] {
        return false;
    }
    if 1 < file[at + 20] {
        return false;
    }
    let length = numbers::read_at(file, at + 29, 2) as usize;
    if 300 < length {
        return false;
    }
    if file.len() < at + 33 + length {
        return false;
    }
    numbers::read_at(file, at + 31 + length, 2) <= 512
}
