// What the box does with the entries of a trial file, one after another.
ghost use Rattle.std.specs.Prelude.{◌≡◌, ◌≤◌, length};
ghost use Rattle.range.specs.Range.{house};
ghost use Rattle.text.specs.Text.{wrote};
ghost use Rattle.gateway_rules.specs.State.{start_of};
ghost use Rattle.replay.specs.Lines.{ports, lines_of};

use crate::{Entries, PORTS, lines};
use range::HOUSE;
use text::Page;

// Puts the line of each entry on a page.
pub(crate) fn put_lines(entries: Entries, page: &mut Page)
    requires { page.old.at ≤ length page.old.text.now }
    ensures { page.new ≡ wrote page.old (lines_of (start_of ports house) entries.entry) }
{
    let mut gateway = gateway::start(PORTS, HOUSE).gateway;
    for entry in entries {
        let a = gateway.hear(entry.port, entry.body);
        lines::put(page, entry.index, a.refusal, a.sent, gateway.head.count);
    }
}
