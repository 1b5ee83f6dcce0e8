// The entries of a trial file, one after another.
ghost use Rattle.std.specs.Prelude.{◌≡◌, ◌≤◌, false, length};
ghost use Rattle.range.specs.Range.{house};
ghost use Rattle.text.specs.Text.{wrote};
ghost use Rattle.gateway_rules.specs.State.{start_of};
ghost use Rattle.replay.specs.Lines.{ports};
ghost use Rattle.explanation.specs.Words.{lines_of};

use crate::legs;
use range::HOUSE;
use replay::{Entries, PORTS};
use text::Page;

// Puts the lines of each entry on a page. An entry is asked about before the box takes it.
pub(crate) fn put_lines(page: &mut Page, entries: Entries)
    requires { page.old.at ≤ length page.old.text.now }
    ensures { page.new ≡ wrote page.old (lines_of false (start_of ports house) entries.entry) }
{
    let mut gateway = gateway::start(PORTS, HOUSE).gateway;
    let mut reported = false;
    for entry in entries {
        reported |= legs::put(page, &gateway, entry);
        gateway.hear(entry.port, entry.body);
    }
    legs::put_end(page, reported);
}
