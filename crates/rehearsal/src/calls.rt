// The calls of a board file, one after another.
ghost use Rattle.std.specs.Prelude.{◌≡◌, true, ◌≤◌, length};
ghost use Rattle.text.specs.Text.{wrote};
ghost use Rattle.rehearsal.specs.Files.{good_calls, most_calls, calls_at, slot_count};
ghost use Rattle.rehearsal.specs.Lines.{call_lines};

use crate::bench::Bench;
use crate::files::{Kind, MOST_CALLS};
use crate::lines;
use text::Page;

// Puts the line of each call.
pub(crate) fn put_lines(page: &mut Page, file: &[u8], bench: &mut Bench)
    requires file_len_bound { (length file.now ≤ 65536) × (slot_count file.now ≤ 100) × (calls_at file.now ≤ length file.now) }
    requires file_value { good_calls most_calls file.now (calls_at file.now) ≡ true }
    requires at_in_bounds { page.old.at ≤ length page.old.text.now }
    ensures { page.new ≡ wrote page.old (call_lines bench.old file.now) }
{
    let mut at = 17 + (file[16] as usize) * 10;
    let mut out = [0u8; 2048];
    for k in 0..MOST_CALLS {
        if file.len() <= at {
            return;
        }
        let kind = Kind::of(file[at]).unwrap();
        let a = bench.call(kind, file, at, &mut out);
        let written = &out[..a.bytes];
        lines::put_line(
            page,
            k,
            a.refusal,
            written,
            a.matches,
            a.node.state,
            bench.marks(),
        );
        at += kind.size(file, at);
    }
}
