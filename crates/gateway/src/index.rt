// The index beside the table: its test, and how it follows what became of the lines.
ghost use Rattle.std.specs.Prelude.{◌≡◌, not, ◌||◌, ◌+◌, ◌≤◌, ◌<◌, length, get_or};
ghost use Rattle.index_rules.specs.Index.{size_sets};
ghost use Rattle.index_rules.specs.Agreeing.{disagrees, same_numbers};
ghost use Rattle.gateway.specs.State.{lines_of};
ghost use Rattle.gateway.specs.Indexing.{spots_of, entry_in, occurs_in, Sized, Fits, Follows, IndexFits};
ghost use Rattle.gateway.specs.State.{lists_of, index_lists_of};
ghost use Rattle.gateway.specs.Lent.{state_in, state_seen, SameBox, SameLines};

use crate::table::{Table, TableView};
use crate::{order, size_sets};

impl TableView<'_> {
    // Whether it is not that of the lines.
    pub(crate) fn astray(&self) -> bool
        requires { Sized self.now.head.count self.now.ports.now self.now.sizes.now }
        ensures { result ≡ (disagrees (spots_of (state_seen self.now)) self.now.head.count (entry_in self.now.order.now) || not (same_numbers self.now.sets.now (size_sets (occurs_in self.now.head.count self.now.ports.now self.now.sizes.now)))) }
    {
        self.strays() || self.wrong_sets()
    }
}

impl Table<'_> {
    // Without the lines that went: there were `before`.
    pub(crate) fn leave_out(&mut self, before: usize, falls: &[u16; 256])
        requires before_bound { (before ≤ 256) × (self.old.head.count ≤ before) }
        requires sized { Sized self.old.head.count self.old.ports.now self.old.sizes.now }
        requires follows { Follows before self.old.head.count self.old.starts.now self.old.ports.now self.old.sizes.now self.old.order.now self.old.sets.now falls.now }
        ensures same { SameBox self.old self.new }
        ensures lines { SameLines (state_in self.old) (state_in self.new) }
        ensures index_fits { Fits (state_in self.new) }
    {
        if self.head.count == before {
            return;
        }
        order::lower(before, self.order, falls);
        let made = self.view().sets_of_lines();
        self.sets.copy_from_slice(&made);
    }

    // With the line behind those that it has.
    pub(crate) fn take_in(&mut self)
        requires room { self.old.head.count < 256 }
        requires port_bound { (get_or self.old.ports.now self.old.head.count 0 < 8) × (get_or self.old.sizes.now self.old.head.count 0 ≤ 64) }
        requires index_fits { Fits (state_in self.old) }
        ensures same { SameBox self.old self.new }
        ensures lines { SameLines (state_in self.old) (state_in self.new) }
        ensures index_fits { IndexFits (self.new.head.count + 1) (lists_of (state_in self.new)) (index_lists_of (state_in self.new)) }
    {
        self.enter();
        let count = self.head.count;
        let port = self.ports[count];
        let k = self.sizes[count];
        size_sets::put_size(self.sets, port, k);
    }
}
