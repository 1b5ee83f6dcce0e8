// The list of aliases of a frame file.
ghost use Rattle.std.specs.Prelude.{◌≡◌, ◌≤◌, length, take};
ghost use Rattle.basics.specs.Lists.{each};
ghost use Rattle.framing.specs.Files.{pair_at, pair_alias, pair_node};

// Fills the first places of the lists with the file's pairs, so many as are asked for.
pub(crate) fn load(file: &[u8], count: usize, aliases: &mut [u64], nodes: &mut [u64])
    requires { (count ≤ length aliases.old) × (count ≤ length nodes.old) × (pair_at count ≤ length file.now) × (length file.now ≤ 65536) }
    ensures aliases_after { take count aliases.new ≡ each count (pair_alias file.now) }
    ensures nodes_after { take count nodes.new ≡ each count (pair_node file.now) }
{
    for i in 0..count {
        let at = 1 + i * 10;
        aliases[i] = numbers::read_at(file, at, 2);
        nodes[i] = numbers::read_at(file, at + 2, 8);
    }
}
