// Why a report is sent to a port or held back from it (document 02, W1).
ghost use Rattle.std.specs.Prelude.{◌≡◌, false, ◌<◌};
ghost use Rattle.basics.specs.Lists.{any};
ghost use Rattle.gateway_rules.specs.State.{out_of_bounds};
ghost use Rattle.gateway_rules.specs.Reasons.{reason_for, by_line, first_holding};
ghost use Rattle.gateway.specs.State.{lines_of, gate_of, no_block, lists, index_lists};
ghost use Rattle.gateway.specs.Asking.{answer_told, lent_why};
ghost use Rattle.gateway.specs.Lent.{state_seen};

use crate::table::TableView;
use crate::{Head, bounds, lines};
use basics::Refusal;
use gateway_rules::{Holder, Reason};
use message::Saying;

// Asks of the report that arrives at a port, for another port or the same. Nothing changes.
pub fn why(
    head: Head,
    nodes: &[u64],
    starts: &[u64],
    ports: &[u8],
    sizes: &[u8],
    order: &[u8],
    sets: &[u64],
    port: u8,
    asked: u8,
    bytes: &[u8],
) -> Result<Reason, Refusal>
    ensures { answer_told result ≡ lent_why head (lists nodes.now starts.now ports.now sizes.now) (index_lists order.now sets.now) port asked bytes.now }
{
    if bounds::bad_state(head, nodes, starts, ports, sizes, order, sets) {
        return Err(Refusal::OutOfBounds);
    }
    if head.ports <= port {
        return Err(Refusal::NoSuchPort);
    }
    if head.ports <= asked {
        return Err(Refusal::NoSuchPort);
    }
    let m = message::read(bytes)?;
    let Saying::Report(e) = message::said_by(m) else {
        return Err(Refusal::NoReport);
    };
    let table = TableView {
        head,
        nodes,
        starts,
        ports,
        sizes,
        order,
        sets,
    };
    let reason = table.reason_for(port, e, asked);
    Ok(reason)
}

impl TableView<'_> {
    // The first that applies.
    fn reason_for(&self, port: u8, e: u64, asked: u8) -> Reason
        requires in_bounds { out_of_bounds (gate_of (state_seen self.now)) ≡ false }
        requires asked_lt_ports { asked < self.now.head.ports }
        ensures { result ≡ reason_for (gate_of (state_seen self.now)) port e asked }
    {
        if asked == port {
            return Reason::ArrivalPort;
        }
        if lines::holds(self.head.automatic, e) {
            return Reason::AutomaticEvent;
        }
        if (self.head.marks >> asked) % 2 == 1 {
            return Reason::OpenPort;
        }
        self.first_holding(asked, e)
    }

    // The first line in table order that is for a port and holds an event.
    fn first_holding(&self, asked: u8, e: u64) -> Reason
        requires { any no_block (lines_of (state_seen self.now)) ≡ false }
        ensures { result ≡ by_line (first_holding asked e 0 (lines_of (state_seen self.now))) }
    {
        for place in 0..self.head.count {
            let l = self.line_at(place);
            if l.port == asked && lines::holds(l.block, e) {
                return Reason::HeldBy(Holder {
                    place,
                    node: l.node,
                    block: l.block,
                });
            }
        }
        Reason::NothingHolds
    }
}
