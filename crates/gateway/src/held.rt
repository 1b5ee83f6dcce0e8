// The box in one place: it changes there, and its lists are lent to each call.
ghost use Rattle.std.specs.Prelude.{◌≡◌};
ghost use Rattle.index_rules.specs.Boxes.{box_step};
ghost use Rattle.gateway.specs.State.{box_of, head_with};
ghost use Rattle.gateway.specs.Answers.{seen_held, seen_of};
ghost use Rattle.gateway.specs.Asking.{answer_told, box_why};

use crate::{Gateway, LentAnswer, receive_lent, why};
use basics::Refusal;
use gateway_rules::Reason;

impl Gateway {
    // A message at a port.
    pub fn hear(&mut self, port: u8, bytes: &[u8]) -> LentAnswer
        ensures seen { seen_held result self.new ≡ seen_of (box_of self.old).index (box_step (box_of self.old) port bytes.now) }
        ensures left { self.new.head ≡ head_with self.old.head result.marks result.count }
        ensures refusal_keeps { (result.refusal ≡ 0 → ⊥) → self.new ≡ self.old }
    {
        let a = receive_lent(
            self.head,
            &mut self.nodes,
            &mut self.starts,
            &mut self.ports,
            &mut self.sizes,
            &mut self.order,
            &mut self.sets,
            port,
            bytes,
        );
        self.head.marks = a.marks;
        self.head.count = a.count;
        a
    }

    // Why the report that arrives at a port is sent to another or the same, or held back. Nothing changes.
    pub fn why(&self, port: u8, asked: u8, bytes: &[u8]) -> Result<Reason, Refusal>
        ensures { answer_told result ≡ box_why (box_of self.now) port asked bytes.now }
    {
        why(
            self.head,
            &self.nodes,
            &self.starts,
            &self.ports,
            &self.sizes,
            &self.order,
            &self.sets,
            port,
            asked,
            bytes,
        )
    }
}
