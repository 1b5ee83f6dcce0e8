// The box: a state goes in with a port and bytes, and comes back with where they go.
#![tactic(auto)]

mod asking;
mod bounds;
mod held;
mod index;
mod lent;
mod lines;
mod lookup;
mod order;
mod port_sets;
mod size_sets;
mod state;
mod step;
mod table;
mod wanting;

ghost use Rattle.std.specs.Prelude.{◌≡◌, []};
ghost use Rattle.gateway_rules.specs.State.{start_of};
ghost use Rattle.gateway_rules.specs.Step.{start as started_by};
ghost use Rattle.index_rules.specs.Index.{index_of};
ghost use Rattle.index_rules.specs.Boxes.{box_step};
ghost use Rattle.gateway.specs.State.{box_of};
ghost use Rattle.gateway.specs.Answers.{seen_in, seen_of, RefusalKeeps};

pub use asking::why;
use basics::Refusal;
pub use lent::receive_lent;
pub use state::{Gateway, Head};

// The refusal or 0, the set of ports it is sent to, bit p for port p, and the next state: the struct that C gets.
#[repr(C)]
#[derive(Drop)]
pub struct Answer {
    pub refusal: u8,
    pub sent: u8,
    pub gateway: Gateway,
}

// The same, for C too, where the lines and their index stand in lent lists: the open marks and the line count are what else can change.
#[repr(C)]
#[derive(Clone, Copy)]
pub struct LentAnswer {
    pub refusal: u8,
    pub sent: u8,
    pub marks: u8,
    pub count: usize,
}

// A gateway without lines and open marks, with the block of the number given and the index of no lines.
pub fn start(ports: u8, r: u64) -> Answer
    ensures { seen_in result ≡ seen_of (index_of []) (started_by ports r) }
{
    if bounds::bad_ports(ports) {
        return Answer {
            refusal: u8::from(Refusal::NoSuchPort),
            sent: 0,
            gateway: empty(0, r),
        };
    }
    Answer {
        refusal: 0,
        sent: 0,
        gateway: empty(ports, r),
    }
}

fn empty(ports: u8, r: u64) -> Gateway
    ensures { box_of result ≡ record { gate = start_of ports r; index = index_of [] } }
{
    Gateway {
        head: Head {
            ports,
            marks: 0,
            automatic: range::block_of(r),
            count: 0,
        },
        nodes: [0; 256],
        starts: [0; 256],
        ports: [0; 256],
        sizes: [0; 256],
        order: [0; 256],
        sets: [0; 9],
    }
}

// A message at a port. The state by value: it goes in and comes back in the answer.
pub fn receive(gateway: Gateway, port: u8, bytes: &[u8]) -> Answer
    ensures result_value { seen_in result ≡ seen_of (box_of gateway).index (box_step (box_of gateway) port bytes.now) }
    ensures refusal_keeps { RefusalKeeps gateway result }
{
    let mut next = gateway;
    let a = next.hear(port, bytes);
    Answer {
        refusal: a.refusal,
        sent: a.sent,
        gateway: next,
    }
}
