// The order: the lines' numbers by port, size, first event and place.
ghost use Rattle.std.specs.Prelude.{◌≡◌, ◌+◌, ◌*◌, ◌≤◌, ◌<◌, ltb, length};
ghost use Rattle.index_rules.specs.Agreeing.{key, Agrees, disagrees, Lowered};
ghost use Rattle.gateway.specs.Indexing.{spots_of, entry_in, Lowerable, Split, PutIn};
ghost use Rattle.gateway.specs.Lent.{state_in, state_seen, spot_number, spot_there, SameBox, SameButOrder};

use crate::table::{Table, TableView};

// What lines are ordered by, and then by their place.
#[derive(Clone, Copy, PartialEq, Eq)]
pub(crate) struct Spot {
    pub(crate) port: u8,
    pub(crate) k: u8,
    pub(crate) start: u64,
}

impl TableView<'_> {
    pub(crate) fn spot_at(&self, i: usize) -> Spot
        requires { i < 256 }
        ensures { result ≡ spot_there (state_seen self.now) i }
    {
        Spot {
            port: self.ports[i],
            k: self.sizes[i],
            start: self.starts[i],
        }
    }

    // Whether line p stands before the spot and the number given. By hand: no proof was found that a derived order of the three fields is that of the rules' key.
    fn precedes(&self, p: u8, spot: Spot, number: u8) -> bool
        ensures { result ≡ ltb (key (spots_of (state_seen self.now)) p) (spot_number spot * 256 + number) }
    {
        let i = p as usize;
        let x = self.ports[i];
        let y = self.sizes[i];
        let z = self.starts[i];
        if x != spot.port {
            return x < spot.port;
        }
        if y != spot.k {
            return y < spot.k;
        }
        if z != spot.start {
            return z < spot.start;
        }
        p < number
    }

    // How many lines stand before the spot and the number given.
    pub(crate) fn ahead(&self, spot: Spot, number: u8) -> usize
        requires { Agrees (spots_of (state_seen self.now)) self.now.head.count (entry_in self.now.order.now) }
        ensures { Split (λ i. key (spots_of (state_seen self.now)) (entry_in self.now.order.now i)) self.now.head.count (spot_number spot * 256 + number) result }
    {
        let order = &self.order[..self.head.count];
        order.partition_point(|p| self.precedes(*p, spot, number))
    }

    // Whether the order is not that of the lines.
    pub(crate) fn strays(&self) -> bool
        ensures { result ≡ disagrees (spots_of (state_seen self.now)) self.now.head.count (entry_in self.now.order.now) }
    {
        for i in 0..self.head.count {
            let p = self.order[i];
            let here = p as usize;
            if self.head.count <= here {
                return true;
            }
            if i == 0 {
                continue;
            }
            if !self.precedes(self.order[i - 1], self.spot_at(here), p) {
                return true;
            }
        }
        false
    }
}

impl Table<'_> {
    // Puts the number of the line behind the others, which is the count, in at its place.
    pub(crate) fn enter(&mut self)
        requires room { self.old.head.count < 256 }
        requires agrees { Agrees (spots_of (state_in self.old)) self.old.head.count (entry_in self.old.order.now) }
        ensures same { SameBox self.old self.new }
        ensures rest { SameButOrder (state_in self.old) (state_in self.new) }
        ensures agrees { Agrees (spots_of (state_in self.old)) (self.old.head.count + 1) (entry_in self.new.order.now) }
    {
        let count = self.head.count;
        let spot = self.view().spot_at(count);
        let place = self.view().ahead(spot, count as u8);
        put_in(self.order, count, place);
    }
}

// The numbers from the place on move up, and the count is put there.
fn put_in(order: &mut [u8], count: usize, place: usize)
    requires count_bound { count < 256 }
    requires place_bound { place ≤ count }
    requires order_len { length order.old ≡ 256 }
    ensures { PutIn count place order.old order.new }
{
    order.copy_within(place..count, place + 1);
    order[place] = count as u8;
}

// Takes the numbers of the lines that go out, and lowers the others.
pub(crate) fn lower(count: usize, order: &mut [u8], falls: &[u16; 256])
    requires count_bound { count ≤ 256 }
    requires order_len { length order.old ≡ 256 }
    requires lowerable { Lowerable count order.old falls.now }
    ensures { Lowered falls.now (entry_in order.old) count (entry_in order.new) }
{
    let mut j = 0;
    for i in 0..count {
        let p = order[i];
        let fall = falls[p as usize];
        if 256 <= fall {
            continue;
        }
        order[j] = p - fall as u8;
        j += 1;
    }
}
