// Sums that tell the order of what is added up too.
use gateway::Gateway;

// The sum of the running sums.
#[derive(Clone, Copy)]
struct Total {
    sum: u64,
    all: u64,
}

impl Total {
    fn new() -> Total {
        Total { sum: 0, all: 0 }
    }

    fn add(&mut self, n: u64) {
        self.sum = self.sum.wrapping_add(n);
        self.all = self.all.wrapping_add(self.sum);
    }
}

// Of what stands at the first places of the table.
pub(crate) fn of_lines(gateway: &Gateway, places: usize) -> u64 {
    let mut total = Total::new();
    for i in 0..places.min(256) {
        let numbers = gateway.nodes[i].wrapping_add(gateway.starts[i]);
        let small = u64::from(gateway.ports[i]) + u64::from(gateway.sizes[i]);
        total.add(numbers.wrapping_add(small));
    }
    total.all
}

pub(crate) fn of_order(order: &[u8]) -> u64 {
    let mut total = Total::new();
    for number in order {
        total.add(u64::from(*number));
    }
    total.all
}

fn of_sets(sets: &[u64]) -> u64 {
    let mut total = Total::new();
    for set in sets {
        total.add(*set);
    }
    total.all
}

// What a refusal keeps: every place of the lists, those of the index too.
pub(crate) fn of_everything(gateway: &Gateway) -> u64 {
    let index = of_order(&gateway.order).wrapping_add(of_sets(&gateway.sets));
    of_lines(gateway, 256).wrapping_add(index)
}
