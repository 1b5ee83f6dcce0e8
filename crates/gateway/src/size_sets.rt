// The sizes that occur: for each of eight ports the set of those below 64, and behind them the set of the ports with the whole space.
ghost use Rattle.std.specs.Prelude.{◌≡◌, not, ◌||◌, ◌≤◌, ◌<◌, eqb, length, get_or, set};
ghost use Rattle.basics.specs.Sets.{set_of, in_set};
ghost use Rattle.index_rules.specs.Index.{size_sets};
ghost use Rattle.index_rules.specs.Agreeing.{same_numbers};
ghost use Rattle.gateway.specs.Indexing.{occurs_in, Sized, SizePut};
ghost use Rattle.gateway.specs.Lent.{state_seen};

use crate::table::TableView;

// Where the set of the ports with the whole space stands.
const WHOLE_SPACE: usize = 8;

impl TableView<'_> {
    // Whether the sets are not those of the lines.
    pub(crate) fn wrong_sets(&self) -> bool
        requires { Sized self.now.head.count self.now.ports.now self.now.sizes.now }
        ensures { result ≡ not (same_numbers self.now.sets.now (size_sets (occurs_in self.now.head.count self.now.ports.now self.now.sizes.now))) }
    {
        let made = self.sets_of_lines();
        self.sets != &made[..]
    }

    // The sets as they should be.
    pub(crate) fn sets_of_lines(&self) -> [u64; 9]
        requires { Sized self.now.head.count self.now.ports.now self.now.sizes.now }
        ensures { result ≡ size_sets (occurs_in self.now.head.count self.now.ports.now self.now.sizes.now) }
    {
        let mut sets: [u64; 9] = [0; 9];
        for i in 0..self.head.count {
            put_size(&mut sets, self.ports[i], self.sizes[i]);
        }
        sets
    }
}

// Puts a size in at a port.
pub(crate) fn put_size(sets: &mut [u64], port: u8, k: u8)
    requires sets_len { length sets.old ≡ 9 }
    requires port_bound { (port < 8) × (k ≤ 64) }
    ensures { SizePut port k sets.old sets.new }
{
    if k < 64 {
        put_bit(sets, port as usize, k);
        return;
    }
    put_bit(sets, WHOLE_SPACE, port);
}

// Where the bit is there nothing is written: a loop that puts in many does not wait for its own stores.
fn put_bit(sets: &mut [u64], place: usize, bit: u8)
    requires { (place < length sets.old) × (bit < 64) }
    ensures { sets.new ≡ set sets.old place (set_of 64 (λ b. in_set (get_or sets.old place 0) b || eqb bit b)) }
{
    let held = sets[place];
    if (held >> bit) % 2 == 1 {
        return;
    }
    sets[place] = held + (1 << bit);
}
