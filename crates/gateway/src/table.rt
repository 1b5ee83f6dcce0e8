// The box's lists as they are lent, and the head beside them: lines are taken out, and one is added.
ghost use Rattle.std.specs.Prelude.{◌≤◌};
ghost use Rattle.gateway.specs.State.{Whole, lists, index_lists};
ghost use Rattle.gateway.specs.Indexing.{WholeIndex};

use crate::Head;
use crate::lines::Gone;
use gateway_rules::Line;

#[derive(Drop)]
pub(crate) struct Table<'a> {
    pub(crate) head: Head,
    pub(crate) nodes: &'a mut [u64],
    pub(crate) starts: &'a mut [u64],
    pub(crate) ports: &'a mut [u8],
    pub(crate) sizes: &'a mut [u8],
    pub(crate) order: &'a mut [u8],
    pub(crate) sets: &'a mut [u64],
    ghost whole: { Whole (lists nodes.now starts.now ports.now sizes.now) },
    ghost whole_index: { WholeIndex (index_lists order.now sets.now) },
    ghost few: { head.count ≤ 256 },
}

// The same to read: the lists of a caller who asks are not lent to be written.
#[derive(Clone, Copy)]
pub(crate) struct TableView<'a> {
    pub(crate) head: Head,
    pub(crate) nodes: &'a [u64],
    pub(crate) starts: &'a [u64],
    pub(crate) ports: &'a [u8],
    pub(crate) sizes: &'a [u8],
    pub(crate) order: &'a [u8],
    pub(crate) sets: &'a [u64],
    ghost whole: { Whole (lists nodes.now starts.now ports.now sizes.now) },
    ghost whole_index: { WholeIndex (index_lists order.now sets.now) },
    ghost few: { head.count ≤ 256 },
}

impl Table<'_> {
    ghost use Rattle.std.specs.Prelude.{◌≡◌, ◌<◌};
    ghost use Rattle.basics.specs.Lists.{without};
    ghost use Rattle.gateway_rules.specs.Step.{adding, with_lines};
    ghost use Rattle.gateway.specs.State.{gate_of, lines_of};
    ghost use Rattle.gateway.specs.Answers.{goes_by, Comparable};
    ghost use Rattle.gateway.specs.Indexing.{Fits, Sound};
    ghost use Rattle.gateway.specs.Lent.{state_in, state_seen, SameBox};

    pub(crate) fn view(&self) -> TableView<'_>
        ensures { state_seen result ≡ state_in self.now }
    {
        TableView {
            head: self.head,
            nodes: self.nodes,
            starts: self.starts,
            ports: self.ports,
            sizes: self.sizes,
            order: self.order,
            sets: self.sets,
        }
    }

    // One pass over the lines, which says by how much each number falls, one over the order, and the sets of those that stay.
    pub(crate) fn remove(&mut self, gone: Gone)
        requires sound { Sound (state_in self.old) }
        requires comparable { Comparable gone (lines_of (state_in self.old)) }
        ensures same { SameBox self.old self.new }
        ensures gate { gate_of (state_in self.new) ≡ with_lines (gate_of (state_in self.old)) (without (goes_by gone) (lines_of (state_in self.old))) }
        ensures index_fits { Fits (state_in self.new) }
    {
        let mut falls: [u16; 256] = [0; 256];
        let before = self.head.count;
        self.take_out(&mut falls, gone);
        self.leave_out(before, &falls);
    }

    // Behind the others.
    pub(crate) fn add(&mut self, l: Line)
        requires room { self.old.head.count < 256 }
        requires port_bound { (l.port < 8) × (l.block.k ≤ 64) }
        requires index_fits { Fits (state_in self.old) }
        ensures same { SameBox self.old self.new }
        ensures gate { gate_of (state_in self.new) ≡ adding (gate_of (state_in self.old)) l }
        ensures index_fits { Fits (state_in self.new) }
    {
        let place = self.head.count;
        self.put_line(place, l);
        self.take_in();
        self.head.count = place + 1;
    }
}
