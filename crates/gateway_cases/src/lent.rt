// The box on lent lists, of which the starts have a place more than a table.
use basics::Refusal;
use gateway::{Answer, Gateway, Head};
use gateway_rules::Reason;

// How many places of each list are lent.
#[derive(Clone, Copy)]
pub(crate) struct Lengths {
    pub(crate) nodes: u64,
    pub(crate) starts: u64,
    pub(crate) ports: u64,
    pub(crate) sizes: u64,
    pub(crate) order: u64,
    pub(crate) sets: u64,
}

impl Lengths {
    pub(crate) fn whole() -> Lengths {
        Lengths {
            nodes: 256,
            starts: 256,
            ports: 256,
            sizes: 256,
            order: 256,
            sets: 9,
        }
    }

    pub(crate) fn receive(self, before: &Gateway, port: u8, bytes: &[u8]) -> Answer {
        let head = before.head;
        let mut nodes = before.nodes;
        let mut starts = longer(&before.starts);
        let mut ports = before.ports;
        let mut sizes = before.sizes;
        let mut order = before.order;
        let mut sets = before.sets;
        let answer = gateway::receive_lent(
            head,
            &mut nodes[..(self.nodes % 257) as usize],
            &mut starts[..(self.starts % 258) as usize],
            &mut ports[..(self.ports % 257) as usize],
            &mut sizes[..(self.sizes % 257) as usize],
            &mut order[..(self.order % 257) as usize],
            &mut sets[..(self.sets % 10) as usize],
            port,
            bytes,
        );
        Answer {
            refusal: answer.refusal,
            sent: answer.sent,
            gateway: Gateway {
                head: Head {
                    marks: answer.marks,
                    count: answer.count,
                    ..head
                },
                nodes,
                starts: shorter(&starts),
                ports,
                sizes,
                order,
                sets,
            },
        }
    }

    pub(crate) fn why(
        self,
        gateway: &Gateway,
        port: u8,
        asked: u8,
        bytes: &[u8],
    ) -> Result<Reason, Refusal> {
        let starts = longer(&gateway.starts);
        gateway::why(
            gateway.head,
            &gateway.nodes[..(self.nodes % 257) as usize],
            &starts[..(self.starts % 258) as usize],
            &gateway.ports[..(self.ports % 257) as usize],
            &gateway.sizes[..(self.sizes % 257) as usize],
            &gateway.order[..(self.order % 257) as usize],
            &gateway.sets[..(self.sets % 10) as usize],
            port,
            asked,
            bytes,
        )
    }
}

// The last once more.
fn longer(starts: &[u64; 256]) -> [u64; 257] {
    let mut longer = [starts[255]; 257];
    longer[..256].copy_from_slice(starts);
    longer
}

fn shorter(starts: &[u64; 257]) -> [u64; 256] {
    let mut shorter = [0; 256];
    shorter.copy_from_slice(&starts[..256]);
    shorter
}
