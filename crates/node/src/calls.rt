// The calls on a board, each with the tests of its own.
ghost use Rattle.std.specs.Prelude.{◌≡◌, [], ◌*◌, ◌≤◌, List, ℕ};
ghost use Rattle.basics.specs.Refusals.{first_of, refusal_in};
ghost use Rattle.node_rules.specs.Calls.{slot_tests};
ghost use Rattle.node_rules.specs.declared.Call.TheVariants.{Initialise, Announce, Produce, SetStatus, Receive};
ghost use Rattle.node.specs.Boards.{slots_in, board_in, answer_with, answer_in, SameLists};
ghost use Rattle.node.specs.Answers.{answer as answer_by, leaves, called};

use crate::board::{ADVERTISED, Board, INITIALIZED, PRODUCER, UNKNOWN};
use crate::{hearing, writing};
use basics::Refusal;
use node_rules::{Call, Node};

// What a call that is not refused did: the messages written and their bytes, the slots that a report matches, and the record after it.
#[derive(Clone, Copy)]
pub(crate) struct Done {
    pub(crate) messages: usize,
    pub(crate) bytes: usize,
    pub(crate) matches: u64,
    pub(crate) node: Node,
}

impl Board<'_> {
    // Any call; only Receive reads the bytes.
    pub(crate) fn perform(
        &mut self,
        call: Call,
        bytes: &[u8],
        out: &mut [u8],
    ) -> Result<Done, Refusal>
        ensures same { SameLists self.old self.new }
        ensures left { leaves (answer_in self.old.node result) (slots_in self.new) out.new ≡ called (board_in self.old) call bytes.now out.old }
    {
        match call {
            Call::Initialise => self.initialise(out),
            Call::Announce(slot) => self.announce(slot, out),
            Call::Produce(slot) => self.produce(slot, out),
            Call::SetStatus(slot, status) => self.set_status(slot, status),
            Call::Receive => self.receive(bytes, out),
        }
    }

    fn initialise(&mut self, out: &mut [u8]) -> Result<Done, Refusal>
        ensures same { SameLists self.old self.new }
        ensures left { leaves (answer_in self.old.node result) (slots_in self.new) out.new ≡ called (board_in self.old) Initialise [] out.old }
    {
        let node = self.node;
        if out.len() < 14 {
            return Err(Refusal::NoRoom);
        }
        self.restart();
        writing::complete(node.id, out);
        Ok(Done {
            messages: 1,
            bytes: 14,
            matches: 0,
            node: Node {
                state: INITIALIZED,
                ..node
            },
        })
    }

    fn announce(&mut self, slot: usize, out: &mut [u8]) -> Result<Done, Refusal>
        ensures same { SameLists self.old self.new }
        ensures left { leaves (answer_in self.old.node result) (slots_in self.new) out.new ≡ called (board_in self.old) (Announce slot) [] out.old }
    {
        let node = self.node;
        self.check_slot(slot)?;
        writing::check_room(1, out.len())?;
        self.identify(slot, 0, out);
        Ok(wrote(node, 1, 0))
    }

    fn produce(&self, slot: usize, out: &mut [u8]) -> Result<Done, Refusal>
        ensures { leaves (answer_in self.now.node result) (slots_in self.now) out.new ≡ called (board_in self.now) (Produce slot) [] out.old }
    {
        let node = self.node;
        self.check_slot(slot)?;
        if self.roles[slot] != PRODUCER {
            return Err(Refusal::NotAProducer);
        }
        if self.marks[slot] != ADVERTISED {
            return Err(Refusal::NotAdvertised);
        }
        writing::check_room(1, out.len())?;
        writing::put(0x05B4, node.id, self.events[slot], 0, out);
        Ok(wrote(node, 1, 0))
    }

    // Refusal 9 or 10, in this order.
    fn check_slot(&self, slot: usize) -> Result<(), Refusal>
        ensures { refusal_in result ≡ first_of (slot_tests (board_in self.now) slot) }
    {
        if self.node.state != INITIALIZED {
            return Err(Refusal::NotInitialized);
        }
        if self.roles.len() <= slot {
            return Err(Refusal::NoSuchSlot);
        }
        Ok(())
    }

    fn set_status(&mut self, slot: usize, status: u8) -> Result<Done, Refusal>
        ensures same { SameLists self.old self.new }
        ensures left { (out : List ℕ) → leaves (answer_in self.old.node result) (slots_in self.new) out ≡ called (board_in self.old) (SetStatus slot status) [] out }
    {
        let node = self.node;
        if self.roles.len() <= slot || UNKNOWN < status {
            return Err(Refusal::NoSuchSlot);
        }
        self.statuses[slot] = status;
        Ok(wrote(node, 0, 0))
    }

    fn receive(&mut self, bytes: &[u8], out: &mut [u8]) -> Result<Done, Refusal>
        ensures same { SameLists self.old self.new }
        ensures left { leaves (answer_in self.old.node result) (slots_in self.new) out.new ≡ called (board_in self.old) Receive bytes.now out.old }
    {
        let node = self.node;
        let message = message::read(bytes)?;
        let heard = hearing::heard_by(node, message);
        let count = self.count_answers(heard);
        writing::check_room(count, out.len())?;
        let matches = self.matches(heard);
        self.answer(heard, out);
        Ok(wrote(node, count, matches))
    }
}

// So many messages with an event, of 16 bytes each.
fn wrote(node: Node, messages: usize, matches: u64) -> Done
    requires { messages ≤ 64 }
    ensures { answer_with result ≡ answer_by 0 messages (messages * 16) matches node }
{
    Done {
        messages,
        bytes: messages * 16,
        matches,
        node,
    }
}
