// The steps of a frame file, one after another.
ghost use Rattle.std.specs.Prelude.{◌≡◌, true, ◌≤◌, length};
ghost use Rattle.text.specs.Text.{wrote};
ghost use Rattle.can_rules.specs.Aliases.{listed};
ghost use Rattle.framing.specs.Files.{good_steps, step_count, steps_at};
ghost use Rattle.framing.specs.Lines.{step_lines};

use crate::calls::Leg;
use crate::files::Kind;
use crate::lines;
use text::Page;

// Puts the line of each step.
pub(crate) fn put_lines(page: &mut Page, file: &[u8], aliases: &[u64], nodes: &[u64])
    requires file_len_bound { (length file.now ≤ 65536) × (steps_at file.now ≤ length file.now) }
    requires file_value { good_steps (step_count file.now) file.now (steps_at file.now) ≡ true }
    requires at_in_bounds { page.old.at ≤ length page.old.text.now }
    ensures { page.new ≡ wrote page.old (step_lines (listed aliases.now nodes.now) file.now) }
{
    let mut at = 1 + (file[0] as usize) * 10;
    let count = numbers::read_at(file, at, 2) as usize;
    at += 2;
    let mut leg = Leg::new(aliases, nodes);
    let mut out = [0u8; 512];
    for k in 0..count {
        let kind = Kind::of(file[at]).unwrap();
        let done = leg.step(kind, file, at, &mut out);
        let refusal = done.err().unwrap_or(0);
        let written = done.unwrap_or(0);
        lines::put_line(page, k, refusal, &out[..written], leg.state.count);
        at += kind.size(file, at);
    }
}
