// States that are laid out, with their index.
use case_files::Places;
use gateway::{Gateway, Head};
use range::Block;

pub(crate) fn bare() -> Gateway {
    laid_out(Head {
        ports: 0,
        marks: 0,
        automatic: Block { start: 0, k: 0 },
        count: 0,
    })
}

pub(crate) fn laid_out(head: Head) -> Gateway {
    let mut gateway = Gateway {
        head,
        nodes: [0; 256],
        starts: [0; 256],
        ports: [0; 256],
        sizes: [0; 256],
        order: [0; 256],
        sets: [0; 9],
    };
    index(&mut gateway);
    gateway
}

// What is put at places of the table, and how much the start rises each time.
#[derive(Clone, Copy)]
pub(crate) struct Filling {
    pub(crate) places: Places,
    pub(crate) port: u8,
    pub(crate) node: u64,
    pub(crate) start: u64,
    pub(crate) k: u8,
    pub(crate) step: u64,
}

impl Filling {
    pub(crate) fn put_into(self, gateway: &mut Gateway) {
        let mut start = self.start;
        for at in 0..256 {
            if self.places.has(at as u64) {
                gateway.ports[at] = self.port;
                gateway.nodes[at] = self.node;
                gateway.starts[at] = start;
                gateway.sizes[at] = self.k;
                start = start.wrapping_add(self.step);
            }
        }
        index(gateway);
    }
}

// The index of the first lines, sorted by port, then size, then first event, then place.
fn index(gateway: &mut Gateway) {
    let count = gateway.head.count.min(256);
    let mut order = [0; 256];
    gateway.sets = [0; 9];
    for line in 0..=255 {
        if usize::from(line) < count {
            order[usize::from(line)] = line;
            put_in_sets(gateway, line);
        }
    }
    order[..count].sort_unstable_by_key(|line| key(gateway, *line));
    gateway.order = order;
}

fn key(gateway: &Gateway, line: u8) -> (u8, u8, u64, u8) {
    let i = usize::from(line);
    (gateway.ports[i], gateway.sizes[i], gateway.starts[i], line)
}

// A port over 7 and a size over 64 are in no set.
fn put_in_sets(gateway: &mut Gateway, line: u8) {
    let port = gateway.ports[usize::from(line)];
    let k = gateway.sizes[usize::from(line)];
    if port > 7 {
        return;
    }
    if k < 64 {
        gateway.sets[usize::from(port)] |= 1 << k;
    } else if k == 64 {
        gateway.sets[8] |= 1 << port;
    }
}
