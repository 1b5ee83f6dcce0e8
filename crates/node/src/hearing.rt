// What a message says to this node, which slots it asks for and which it matches.
ghost use Rattle.std.specs.Prelude.{◌≡◌, ◌<◌, length};
ghost use Rattle.basics.specs.Sets.{set_of};
ghost use Rattle.node_rules.specs.Hearing.{is_for, heard_by, asks_at, matches_at};

use crate::board::{Board, CONSUMER, INITIALIZED};
use message::{Message, Saying};
use node_rules::Node;

// Nothing while the node is not Initialized, nor by an inquiry for another node.
#[tactic(auto, unfolding(node_rules::specs::Hearing::heard_by))]
pub(crate) fn heard_by(node: Node, m: Message) -> Saying
    ensures { result ≡ heard_by node m }
{
    if node.state != INITIALIZED {
        return Saying::Nothing;
    }
    let said = message::said_by(m);
    let Saying::InquiryForAll(destination) = said else {
        return said;
    };
    if is_for(node.id, destination) {
        said
    } else {
        Saying::Nothing
    }
}

// Identify Events, global or addressed to this node.
fn is_for(id: u64, destination: Option<u64>) -> bool
    ensures { result ≡ is_for id destination }
{
    destination.is_none_or(|d| d == id)
}

impl Board<'_> {
    // Whether slot i is asked for.
    pub(crate) fn asks(&self, heard: Saying, i: usize) -> bool
        requires { i < length self.now.roles.now }
        ensures { result ≡ asks_at self.now.node.automatic self.now.roles.now self.now.events.now heard i }
    {
        match heard {
            Saying::Inquiry(role, e) => self.has(role, e, i),
            Saying::InquiryForAll(_) => !self.is_automatic(i),
            _ => false,
        }
    }

    // The set of the slots that a message matches: the consumer slots with the event of a report.
    pub(crate) fn matches(&self, heard: Saying) -> u64
        ensures { result ≡ set_of 64 (matches_at self.now.roles.now self.now.events.now heard) }
    {
        match heard {
            Saying::Report(e) => self.having(CONSUMER, e),
            _ => 0,
        }
    }
}
