// What an accepted message changes.
ghost use Rattle.std.specs.Prelude.{◌≡◌, true, ◌<◌};
ghost use Rattle.range.specs.Range.{is_block};
ghost use Rattle.gateway_rules.specs.Step.{announce as announce_to, hear as hear_at, holds_some, replacing, restart as restart_of, storing};
ghost use Rattle.gateway.specs.State.{gate_of, lines_of};
ghost use Rattle.gateway.specs.Answers.{AnnouncesBlock};
ghost use Rattle.gateway.specs.Indexing.{Fits, Sound};
ghost use Rattle.gateway.specs.Lent.{state_in, SameBox};

use crate::lines::{Gone, Standing};
use crate::port_sets;
use crate::table::Table;
use gateway_rules::Line;
use message::Saying;

impl Table<'_> {
    // Most messages change nothing.
    pub(crate) fn hear(&mut self, port: u8, node: u64, saying: Saying)
        requires sound { Sound (state_in self.old) }
        requires port_lt_ports { (port < self.old.head.ports) × AnnouncesBlock saying }
        ensures same { SameBox self.old self.new }
        ensures gate { gate_of (state_in self.new) ≡ hear_at (gate_of (state_in self.old)) port node saying }
        ensures index_fits { Fits (state_in self.new) }
    {
        if let Saying::Restart = saying {
            self.restart(node);
            return;
        }
        let Saying::Announcement(block) = saying else {
            return;
        };
        self.announce(Line { port, node, block });
    }

    fn restart(&mut self, node: u64)
        requires { Sound (state_in self.old) }
        ensures same { SameBox self.old self.new }
        ensures gate { gate_of (state_in self.new) ≡ restart_of (gate_of (state_in self.old)) node }
        ensures index_fits { Fits (state_in self.new) }
    {
        self.remove(Gone::OfNode(node));
    }

    fn announce(&mut self, l: Line)
        requires sound { Sound (state_in self.old) }
        requires port_lt_ports { (l.port < self.old.head.ports) × (is_block l.block ≡ true) }
        ensures same { SameBox self.old self.new }
        ensures gate { gate_of (state_in self.new) ≡ announce_to (gate_of (state_in self.old)) l }
        ensures index_fits { Fits (state_in self.new) }
    {
        match self.view().looked_for(l) {
            Standing::Covered => {}
            Standing::Holding => self.replace(l),
            Standing::New => self.store(l),
        }
    }

    fn replace(&mut self, l: Line)
        requires sound { Sound (state_in self.old) }
        requires port_lt_ports { (l.port < self.old.head.ports) × (is_block l.block ≡ true) }
        requires holds_some { holds_some (lines_of (state_in self.old)) l ≡ true }
        ensures same { SameBox self.old self.new }
        ensures gate { gate_of (state_in self.new) ≡ replacing (gate_of (state_in self.old)) l }
        ensures index_fits { Fits (state_in self.new) }
    {
        self.remove(Gone::HeldBy(l));
        self.add(l);
    }

    fn store(&mut self, l: Line)
        requires sound { Sound (state_in self.old) }
        requires port_lt_ports { (l.port < self.old.head.ports) × (is_block l.block ≡ true) }
        ensures same { SameBox self.old self.new }
        ensures gate { gate_of (state_in self.new) ≡ storing (gate_of (state_in self.old)) l }
        ensures index_fits { Fits (state_in self.new) }
    {
        if self.head.count < 256 {
            self.add(l);
            return;
        }
        self.head.marks = port_sets::with_port(self.head.marks, l.port);
    }
}
