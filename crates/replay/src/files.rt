// Whether a file is a trial file.
ghost use Rattle.std.specs.Prelude.{◌≡◌, ◌≤◌, length};
ghost use Rattle.replay.specs.Files.{entry_count, entry_at, body_at, good_file};

pub fn good_file(file: &[u8]) -> bool
    ensures { result ≡ good_file file.now }
{
    if 65536 < file.len() {
        return false;
    }
    if file.len() < 2 {
        return false;
    }
    let count = numbers::read_at(file, 0, 2) as usize;
    if 1000 < count {
        return false;
    }
    if file.len() < 2 + count * 3 {
        return false;
    }
    end(file, count) == file.len()
}

// Where the last body ends.
#[tactic(auto, using(crate::proofs::Good::body_first, crate::proofs::Good::body_next))]
fn end(file: &[u8], count: usize) -> usize
    requires { (count ≡ entry_count file.now) × (count ≤ 1000) × (entry_at count ≤ length file.now) }
    ensures { result ≡ body_at file.now count }
{
    let mut at = 2 + count * 3;
    for i in 0..count {
        at += numbers::read_at(file, 2 + i * 3 + 1, 2) as usize;
    }
    at
}
