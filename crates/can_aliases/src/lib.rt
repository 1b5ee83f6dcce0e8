// The list of aliases, lent as two lists: node i stands behind alias i.
#![tactic(auto)]

ghost use Rattle.std.specs.Prelude.{◌≡◌, ◌==◌, length, slice_get, unwrap_or, position};
ghost use Rattle.can_rules.specs.Aliases.{nobody, no_alias, bad_aliases, place_in, node_for, alias_for};
ghost use Rattle.can_aliases.specs.Parts.{any_bad, list_in};

#[derive(Clone, Copy)]
pub struct AliasList<'a> {
    pub aliases: &'a [u64],
    pub nodes: &'a [u64],
}

impl<'a> AliasList<'a> {
    #[tactic(auto, unfolding(can_rules::specs::Aliases::bad_aliases))]
    pub fn out_of_bounds(&self) -> bool
        ensures { result ≡ bad_aliases (list_in self.now) }
    {
        self.aliases.len() != self.nodes.len() || 128 < self.nodes.len() || self.any_bad()
    }

    // Whether an alias or a Node ID is bad or stands twice. Of what is met at a place, the low bit is for aliases, which are no more than 12 bits, and the next for the
    // low 12 bits of Node IDs: only where those were met are Node IDs compared. So one array is cleared and one pass is made; a set would need the heap, which what C calls has not.
    fn any_bad(&self) -> bool
        requires { length self.now.aliases.now ≡ length self.now.nodes.now }
        ensures { result ≡ any_bad self.now.aliases.now self.now.nodes.now }
    {
        let aliases = self.aliases;
        let nodes = self.nodes;
        let mut met = [0u8; 4096];
        for i in (0..nodes.len()).rev() {
            let alias = aliases[i];
            let node = nodes[i];
            if 0xFFF < alias || message::bad_node(node) {
                return true;
            }
            let alias_at = (alias % 0x1000) as usize;
            let old = met[alias_at];
            if old % 2 == 1 {
                return true;
            }
            met[alias_at] = old / 2 % 2 * 2 + 1;
            let node_at = (node % 0x1000) as usize;
            let had = met[node_at];
            if 2 <= had && nodes[i + 1..].contains(&node) {
                return true;
            }
            met[node_at] = had % 2 + 2;
        }
        false
    }

    // The Node ID for an alias, which in a list in bounds is not 0.
    pub fn node_for(&self, alias: u64) -> Option<u64>
        ensures value { unwrap_or result nobody ≡ node_for (list_in self.now) alias }
        ensures item { result ≡ slice_get self.now.nodes.now (place_in self.now.aliases.now alias) }
    {
        other_for(self.aliases, alias, self.nodes)
    }

    // The alias for a Node ID, which in a list in bounds is of 12 bits.
    pub fn alias_for(&self, node: u64) -> Option<u64>
        ensures value { unwrap_or result no_alias ≡ alias_for (list_in self.now) node }
        ensures item { result ≡ slice_get self.now.aliases.now (place_in self.now.nodes.now node) }
    {
        other_for(self.nodes, node, self.aliases)
    }
}

// What stands in the other list at the place of a number.
fn other_for(list: &[u64], x: u64, others: &[u64]) -> Option<u64>
    ensures { result ≡ slice_get others.now (place_in list.now x) }
{
    let place = place_of(list, x).unwrap_or(list.len());
    others.get(place).copied()
}

fn place_of(list: &[u64], x: u64) -> Option<usize>
    ensures { result ≡ position (λ y. y == x) list.now }
{
    list.iter().position(|y| *y == x)
}
