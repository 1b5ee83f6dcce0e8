// The slots of a board: which have a role and Event ID, and their marks.
ghost use Rattle.std.specs.Prelude.{◌≡◌, true, cond, ◌+◌, ◌^◌, ◌<◌, length, get_or};
ghost use Rattle.range.specs.Range.{is_block, in_block};
ghost use Rattle.basics.specs.Sets.{set_of};
ghost use Rattle.node_rules.specs.Boards.{advertise, has_at};
ghost use Rattle.node_rules.specs.Hearing.{lowest_at};
ghost use Rattle.node_rules.specs.Calls.{restarted};
ghost use Rattle.node.specs.Boards.{slots_in, board_in, SameLists};

use crate::board::{ADVERTISED, Board, UNADVERTISED};
use range::Block;

impl Board<'_> {
    // Slots in the automatic block become Advertised, all others Unadvertised.
    pub(crate) fn restart(&mut self)
        ensures same { SameLists self.old self.new }
        ensures slots { slots_in self.new ≡ (restarted (board_in self.old)).slots }
    {
        let automatic = self.node.automatic;
        let events = self.events;
        for (i, mark) in self.marks.iter_mut().enumerate() {
            *mark = if in_block(automatic, events[i]) {
                ADVERTISED
            } else {
                UNADVERTISED
            };
        }
    }

    // Every slot of the role and Event ID of a slot becomes Advertised.
    pub(crate) fn advertise(&mut self, slot: usize)
        requires { slot < length self.old.roles.now }
        ensures same { SameLists self.old self.new }
        ensures slots { slots_in self.new ≡ advertise (slots_in self.old) slot }
    {
        let roles = self.roles;
        let events = self.events;
        for (i, mark) in self.marks.iter_mut().enumerate() {
            if roles[i] == roles[slot] && events[i] == events[slot] {
                *mark = ADVERTISED;
            }
        }
    }

    // Whether slot i has a role and Event ID.
    pub(crate) fn has(&self, role: u8, event: u64, i: usize) -> bool
        requires { i < length self.now.roles.now }
        ensures { result ≡ has_at self.now.roles.now self.now.events.now role event i }
    {
        self.roles[i] == role && self.events[i] == event
    }

    // Whether slot i is in the automatic block.
    pub(crate) fn is_automatic(&self, i: usize) -> bool
        requires { i < length self.now.roles.now }
        ensures { result ≡ in_block self.now.node.automatic (get_or self.now.events.now i 0) }
    {
        in_block(self.node.automatic, self.events[i])
    }

    // Whether no slot below i has its role and Event ID. A loop, since that `any` over a range is `any_below` is not proved.
    pub(crate) fn is_lowest(&self, i: usize) -> bool
        requires { i < length self.now.roles.now }
        ensures { result ≡ lowest_at self.now.roles.now self.now.events.now i }
    {
        for j in 0..i {
            if self.has(self.roles[i], self.events[i], j) {
                return false;
            }
        }
        true
    }

    // The set of the slots that have a role and Event ID.
    #[tactic(auto, unfolding(basics::specs::Sets::set_of))]
    pub(crate) fn having(&self, role: u8, event: u64) -> u64
        ensures { result ≡ set_of (length self.now.roles.now) (has_at self.now.roles.now self.now.events.now role event) }
    {
        let mut set = 0;
        for i in 0..self.roles.len() {
            if self.has(role, event, i) {
                set += 1 << i;
            }
        }
        set
    }
}

fn in_block(block: Block, e: u64) -> bool
    requires { is_block block ≡ true }
    ensures { result ≡ in_block block e }
{
    range::holds(block, e).unwrap_or(false)
}
