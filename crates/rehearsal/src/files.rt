// Whether a board file is good, and the numbers in it.
ghost use Rattle.std.specs.Prelude.{◌≡◌, true, ◌+◌, ◌≤◌, ◌<◌, length};
ghost use Rattle.rehearsal.specs.Files.{call_in, head_size, size_at, call_at, room_at, good_calls, most_calls, good_file};
ghost use Rattle.rehearsal.specs.Kinds.{number_of, IsKind, IsGood};

use node_rules::Call;

// How many calls a good file has at most.
pub(crate) const MOST_CALLS: usize = 1000;

// Which of the five calls one is.
#[derive(Clone, Copy)]
pub(crate) enum Kind {
    Initialise,
    Announce,
    Produce,
    SetStatus,
    Receive,
}

impl Kind {
    // The kind of a call with this first byte.
    pub(crate) fn of(byte: u8) -> Option<Kind>
        ensures { IsKind result byte }
    {
        match byte {
            1 => Some(Kind::Initialise),
            2 => Some(Kind::Announce),
            3 => Some(Kind::Produce),
            4 => Some(Kind::SetStatus),
            5 => Some(Kind::Receive),
            _ => None,
        }
    }

    pub(crate) fn head_size(self) -> usize
        ensures { result ≡ head_size (number_of self) }
    {
        match self {
            Kind::Initialise => 3,
            Kind::Announce => 4,
            Kind::Produce => 4,
            Kind::SetStatus => 3,
            Kind::Receive => 5,
        }
    }

    // How many bytes such a call at a place has.
    pub(crate) fn size(self, file: &[u8], at: usize) -> usize
        requires { (at < length file.now) × (length file.now ≤ 65536) × (call_in file.now at ≡ number_of self) }
        ensures { result ≡ size_at file.now at }
    {
        match self {
            Kind::Receive => 5 + numbers::read_at(file, at + 3, 2) as usize,
            _ => self.head_size(),
        }
    }

    // The room that such a call at a place has.
    pub(crate) fn room(self, file: &[u8], at: usize) -> usize
        requires { (at < length file.now) × (length file.now ≤ 65536) × (call_in file.now at ≡ number_of self) }
        ensures { result ≡ room_at file.now at }
    {
        match self {
            Kind::SetStatus => 0,
            _ => numbers::read_at(file, at + 1, 2) as usize,
        }
    }

    // Such a call at a place, with its slot and its status.
    pub(crate) fn call(self, file: &[u8], at: usize) -> Call
        requires { (at + head_size (call_in file.now at) ≤ length file.now) × (call_in file.now at ≡ number_of self) }
        ensures { result ≡ call_at file.now at }
    {
        match self {
            Kind::Initialise => Call::Initialise,
            Kind::Announce => Call::Announce(file[at + 3] as usize),
            Kind::Produce => Call::Produce(file[at + 3] as usize),
            Kind::SetStatus => Call::SetStatus(file[at + 1] as usize, file[at + 2]),
            Kind::Receive => Call::Receive,
        }
    }
}

pub(crate) fn good(file: &[u8]) -> bool
    ensures { result ≡ good_file file.now }
{
    if 65536 < file.len() {
        return false;
    }
    if file.len() < 17 {
        return false;
    }
    let count = file[16] as usize;
    if 100 < count {
        return false;
    }
    let at = 17 + count * 10;
    if file.len() < at {
        return false;
    }
    good_calls(file, at)
}

fn good_calls(file: &[u8], start: usize) -> bool
    requires { (start ≤ length file.now) × (length file.now ≤ 65536) }
    ensures { result ≡ good_calls most_calls file.now start }
{
    let mut at = start;
    for _k in 0..MOST_CALLS {
        if file.len() <= at {
            return true;
        }
        let Some(kind) = good_call(file, at) else {
            return false;
        };
        at += kind.size(file, at);
    }
    file.len() <= at
}

// The kind of the call at a place, where it is a good one.
fn good_call(file: &[u8], at: usize) -> Option<Kind>
    requires { (at < length file.now) × (length file.now ≤ 65536) }
    ensures { IsGood result file.now at }
{
    let kind = Kind::of(file[at])?;
    if file.len() < at + kind.head_size() {
        return None;
    }
    if file.len() - at < kind.size(file, at) {
        return None;
    }
    (kind.room(file, at) <= 2048).then_some(kind)
}
