// The entries of a trial file: all but the last are run, and the last is asked.
ghost use Rattle.std.specs.Prelude.{◌≡◌, ◌≤◌, length};
ghost use Rattle.text.specs.Text.{wrote};
ghost use Rattle.replay.specs.Files.{entry_count};
ghost use Rattle.reasons.specs.Lines.{last_of};

use crate::lines;
use range::HOUSE;
use replay::{Entries, PORTS};
use text::Page;

// Puts the lines of the last of all entries on a page; without entries there are none.
pub(crate) fn ask_last(page: &mut Page, entries: Entries)
    requires first { entries.index ≡ 0 }
    requires at_in_bounds { page.old.at ≤ length page.old.text.now }
    ensures { let file = entries.entry.file.now in page.new ≡ wrote page.old (last_of (entry_count file) file) }
{
    let mut gateway = gateway::start(PORTS, HOUSE).gateway;
    let mut entries = entries;
    let Some(mut asked) = entries.next() else {
        return;
    };
    for entry in entries {
        gateway.hear(asked.port, asked.body);
        asked = entry;
    }
    lines::put(page, &gateway, asked);
}
