// Whether a state is out of bounds.
ghost use Rattle.std.specs.Prelude.{◌≡◌, ◌≤◌, not, leb, length};
ghost use Rattle.range.specs.Range.{has_number};
ghost use Rattle.message.specs.Messages.{bad_node};
ghost use Rattle.basics.specs.Lists.{any};
ghost use Rattle.basics.specs.Sets.{in_set};
ghost use Rattle.gateway_rules.specs.State.{bad_ports, bad_line, stray_mark};
ghost use Rattle.gateway.specs.State.{bad_head, lines_of, lists, index_lists, first_blocks, not_block};
ghost use Rattle.gateway.specs.Answers.{bad_lengths, bad_index_lengths, outside};
ghost use Rattle.gateway.specs.Lent.{state_seen};

use crate::Head;
use crate::table::TableView;
use range::Block;

// Every Node ID is below it.
const PAST_NODE_IDS: u64 = 0x1_0000_0000_0000;

// All that is refusal 7: the lengths of the lists, the head, the lines, the index.
pub(crate) fn bad_state(
    head: Head,
    nodes: &[u64],
    starts: &[u64],
    ports: &[u8],
    sizes: &[u8],
    order: &[u8],
    sets: &[u64],
) -> bool
    ensures { result ≡ outside head (lists nodes.now starts.now ports.now sizes.now) (index_lists order.now sets.now) }
{
    if bad_lengths(nodes.len(), starts.len(), ports.len(), sizes.len()) {
        return true;
    }
    if bad_index_lengths(order.len(), sets.len()) {
        return true;
    }
    if bad_head(head) {
        return true;
    }
    let table = TableView {
        head,
        nodes,
        starts,
        ports,
        sizes,
        order,
        sets,
    };
    if table.bad_lines() {
        return true;
    }
    table.astray()
}

fn bad_lengths(nodes: usize, starts: usize, ports: usize, sizes: usize) -> bool
    ensures { result ≡ bad_lengths nodes starts ports sizes }
{
    nodes != 256 || starts != 256 || ports != 256 || sizes != 256
}

fn bad_index_lengths(order: usize, sets: usize) -> bool
    ensures { result ≡ bad_index_lengths order sets }
{
    order != 256 || sets != 9
}

// All but the lines.
fn bad_head(head: Head) -> bool
    ensures { result ≡ bad_head head }
{
    bad_ports(head.ports)
        || 256 < head.count
        || stray_mark(head.marks, head.ports)
        || bad_automatic(head.automatic)
}

pub(crate) fn bad_ports(ports: u8) -> bool
    ensures { result ≡ bad_ports ports }
{
    ports < 2 || 8 < ports
}

// An open mark on a port that isn't there.
fn stray_mark(marks: u8, ports: u8) -> bool
    ensures { result ≡ stray_mark ports (in_set marks) }
{
    for p in 0..8 {
        if ports <= p && (marks >> p) % 2 == 1 {
            return true;
        }
    }
    false
}

// A block that has no range number.
fn bad_automatic(b: Block) -> bool
    ensures { result ≡ not (has_number b) }
{
    b.k == 0 || !range::is_block(b)
}

impl TableView<'_> {
    fn bad_lines(&self) -> bool
        ensures { result ≡ any (bad_line self.now.head.ports) (lines_of (state_seen self.now)) }
    {
        let count = self.head.count;
        some_port_past(&self.ports[..count], self.head.ports)
            || some_bad_node(&self.nodes[..count])
            || self.some_no_block()
    }

    // Whether a line's block is none.
    fn some_no_block(&self) -> bool
        ensures { result ≡ any not_block (first_blocks self.now.head.count self.now.starts.now self.now.sizes.now) }
    {
        for i in 0..self.head.count {
            let block = Block {
                start: self.starts[i],
                k: self.sizes[i],
            };
            if !range::is_block(block) {
                return true;
            }
        }
        false
    }
}

// Whether a line is at a port that isn't there. It goes on to the end, so that many are compared at once.
fn some_port_past(ports: &[u8], below: u8) -> bool
    ensures { result ≡ any (leb below) ports.now }
{
    let mut past = false;
    for port in ports {
        past |= below <= *port;
    }
    past
}

// Whether a line has a Node ID of 0 or of more than six bytes. What is above the six bytes is added up and tested once.
fn some_bad_node(nodes: &[u64]) -> bool
    requires { length nodes.now ≤ 256 }
    ensures { result ≡ any bad_node nodes.now }
{
    let mut zero = false;
    let mut above = 0;
    for node in nodes {
        above += *node / PAST_NODE_IDS;
        zero |= *node == 0;
    }
    zero || above != 0
}
