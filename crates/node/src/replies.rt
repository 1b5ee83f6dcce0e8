// The answers of the slots that are asked for.
ghost use Rattle.std.specs.Prelude.{◌≡◌, ◌+◌, ◌*◌, ◌≤◌, ◌<◌, length};
ghost use Rattle.numbers.specs.Numbers.{pasted};
ghost use Rattle.node_rules.specs.Boards.{advertise};
ghost use Rattle.node_rules.specs.Sending.{whole_bytes, all_bytes, identified};
ghost use Rattle.node_rules.specs.Hearing.{answers_at, chosen, answering};
ghost use Rattle.node_rules.specs.Calls.{replies, replied};
ghost use Rattle.node.specs.Boards.{slots_in, board_in, SameLists};

use crate::board::Board;
use crate::writing;
use message::Saying;

impl Board<'_> {
    // Whether slot i answers.
    fn answers(&self, heard: Saying, i: usize) -> bool
        requires { i < length self.now.roles.now }
        ensures { result ≡ answers_at self.now.node.automatic self.now.roles.now self.now.events.now heard i }
    {
        self.asks(heard, i) && self.is_lowest(i)
    }

    // How many slots answer.
    #[tactic(auto, unfolding(node_rules::specs::Hearing::chosen))]
    pub(crate) fn count_answers(&self, heard: Saying) -> usize
        ensures { result ≡ length (chosen (length self.now.roles.now) (answers_at self.now.node.automatic self.now.roles.now self.now.events.now heard)) }
    {
        let mut n = 0;
        for i in 0..self.roles.len() {
            if self.answers(heard, i) {
                n += 1;
            }
        }
        n
    }

    // Writes a slot's Identified message at a place of the output, and marks every slot of that role and Event ID.
    pub(crate) fn identify(&mut self, slot: usize, at: usize, out: &mut [u8])
        requires slot_in_bounds { slot < length self.old.roles.now }
        requires at_in_bounds { at + 16 ≤ length out.old }
        ensures same { SameLists self.old self.new }
        ensures slots { slots_in self.new ≡ advertise (slots_in self.old) slot }
        ensures out_after { out.new ≡ pasted at (whole_bytes (identified (board_in self.old) slot)) out.old }
    {
        let mti = writing::identified_mti(self.roles[slot], self.statuses[slot]);
        writing::put(mti, self.node.id, self.events[slot], at, out);
        self.advertise(slot);
    }

    // Writes the replies of the slots that answer, one after another.
    pub(crate) fn answer(&mut self, heard: Saying, out: &mut [u8])
        requires { length (answering (board_in self.old) heard) * 16 ≤ length out.old }
        ensures same { SameLists self.old self.new }
        ensures board { board_in self.new ≡ replied (board_in self.old) heard }
        ensures out_after { out.new ≡ pasted 0 (all_bytes (replies (board_in self.old) heard)) out.old }
    {
        let mut at = 0;
        for i in 0..self.roles.len() {
            if self.answers(heard, i) {
                self.identify(i, at, out);
                at += 16;
            }
        }
    }
}
