// Which ports want what a message says.
ghost use Rattle.std.specs.Prelude.{◌≡◌, true};
ghost use Rattle.range.specs.Range.{is_block};
ghost use Rattle.gateway.specs.State.{gate_of};
ghost use Rattle.gateway.specs.Answers.{wanted_by, looked_up_in};
ghost use Rattle.gateway.specs.Indexing.{Sound};
ghost use Rattle.gateway.specs.Lent.{state_seen};

use crate::lines;
use crate::table::TableView;
use message::Saying;
use range::Block;

const EVERY: u8 = 255;

impl TableView<'_> {
    // The ports as a set.
    pub(crate) fn wanted(&self, saying: Saying) -> u8
        requires { Sound (state_seen self.now) }
        ensures { result ≡ wanted_by (gate_of (state_seen self.now)) saying }
    {
        match looked_up(self.head.automatic, saying) {
            None => EVERY,
            Some(e) => self.holders(e),
        }
    }
}

// The event of a report that is not automatic: those who hold it want it. All else every port wants.
fn looked_up(automatic: Block, saying: Saying) -> Option<u64>
    requires { is_block automatic ≡ true }
    ensures { result ≡ looked_up_in automatic saying }
{
    let Saying::Report(e) = saying else {
        return None;
    };
    if lines::holds(automatic, e) {
        return None;
    }
    Some(e)
}
