// Sets of ports as numbers: bit p for port p.
ghost use Rattle.std.specs.Prelude.{◌≡◌, not, cond, ◌&&◌, ◌||◌, ◌+◌, ◌<◌, ◌^◌, eqb, ltb};
ghost use Rattle.basics.specs.Sets.{set_of, in_set};

// A set with a port put in.
pub(crate) fn with_port(set: u8, port: u8) -> u8
    requires { port < 8 }
    ensures { result ≡ set_of 8 (λ p. in_set set p || eqb port p) }
{
    if (set >> port) % 2 == 1 {
        set
    } else {
        set + (1 << port)
    }
}

// The ports of a set that are there, but for the one of arrival.
pub(crate) fn others(set: u8, ports: u8, port: u8) -> u8
    ensures { result ≡ set_of 8 (λ p. ltb p ports && (not (eqb p port) && in_set set p)) }
{
    let mut sent: u8 = 0;
    for p in 0..8 {
        sent = put(sent, p, goes(set, ports, port, p));
    }
    sent
}

fn goes(set: u8, ports: u8, port: u8, p: u8) -> bool
    requires { p < 8 }
    ensures { result ≡ (ltb p ports && (not (eqb p port) && in_set set p)) }
{
    p < ports && p != port && (set >> p) % 2 == 1
}

fn put(set: u8, p: u8, yes: bool) -> u8
    requires p_bound { p < 8 }
    requires set_bound { set < 2 ^ p }
    ensures { result ≡ set + cond yes (2 ^ p) 0 }
{
    if yes { set + (1 << p) } else { set }
}
