// A report looked up in the index, size by size, smallest first (document 02, W6).
ghost use Rattle.std.specs.Prelude.{◌≡◌, ◌&&◌, ◌||◌, ◌*◌, ◌/◌, ◌^◌, ◌<◌};
ghost use Rattle.basics.specs.Sets.{set_of, in_set, any_below};
ghost use Rattle.gateway.specs.Indexing.{Sound, held_in, placed_at};
ghost use Rattle.gateway.specs.Lent.{state_seen};

use crate::order::Spot;
use crate::port_sets;
use crate::table::TableView;

impl TableView<'_> {
    // The open ports, and those that have a line which holds the event.
    pub(crate) fn holders(&self, e: u64) -> u8
        requires { Sound (state_seen self.now) }
        ensures { result ≡ set_of 8 (λ p. in_set self.now.head.marks p || held_in (state_seen self.now) p e) }
    {
        let mut wanted = self.head.marks;
        for port in 0..8 {
            if self.held_at(port, e) {
                wanted = port_sets::with_port(wanted, port);
            }
        }
        wanted
    }

    // Whether a line at the port holds the event: the whole space last.
    fn held_at(&self, port: u8, e: u64) -> bool
        requires port_bound { port < 8 }
        requires sound { Sound (state_seen self.now) }
        ensures { result ≡ held_in (state_seen self.now) port e }
    {
        self.under(self.sets[port as usize], port, e) || (self.sets[8] >> port) % 2 == 1
    }

    // Whether, of the sizes of a set, the one block that holds the event is found: the sizes that are not in the set are passed over.
    fn under(&self, set: u64, port: u8, e: u64) -> bool
        requires { Sound (state_seen self.now) }
        ensures { result ≡ any_below 64 (λ k. in_set set k && placed_at (state_seen self.now) port k (e / 2 ^ k * 2 ^ k)) }
    {
        let mut k: u8 = 0;
        // It goes from one size that occurs to the next, which no range does.
        while k < 64 {
            let at = k + (set >> k).trailing_zeros() as u8;
            if 64 <= at {
                return false;
            }
            k = at + 1;
            let spot = Spot {
                port,
                k: at,
                start: (e >> at) << at,
            };
            if self.find(spot) {
                return true;
            }
        }
        false
    }

    // Whether a line stands at the spot: it is the first that does not stand before it, or there is none.
    fn find(&self, spot: Spot) -> bool
        requires { Sound (state_seen self.now) }
        ensures { result ≡ placed_at (state_seen self.now) spot.port spot.k spot.start }
    {
        let place = self.ahead(spot, 0);
        if self.head.count <= place {
            return false;
        }
        self.spot_at(self.order[place] as usize) == spot
    }
}
