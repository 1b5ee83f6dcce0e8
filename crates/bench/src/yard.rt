// The yard: a box, a panel on leg 0, and boards 7 and 9, which are on leg 1 until one is carried to another.
use crate::boards::{Board, ROUTE_OF_7, ROUTE_OF_9};
use crate::legs::Legs;
use gateway::Gateway;
use node_rules::Call;
use std::io;

#[derive(Clone, Copy)]
pub(crate) enum Who {
    Panel,
    Seven,
    Nine,
}

// A board, and the leg that it is on.
#[derive(Clone, Copy)]
struct Placed {
    board: Board,
    leg: u8,
}

#[derive(Drop)]
pub(crate) struct Yard {
    gateway: Gateway,
    panel: Placed,
    seven: Placed,
    nine: Placed,
}

impl Yard {
    pub(crate) fn laid_out() -> Yard {
        Yard {
            gateway: gateway::start(4, range::HOUSE).gateway,
            panel: Placed {
                board: Board::panel(),
                leg: 0,
            },
            seven: Placed {
                board: Board::points(0x0A00_0000_0007, ROUTE_OF_7, 0x0A00_0000_0007_0002),
                leg: 1,
            },
            nine: Placed {
                board: Board::points(0x0A00_0000_0009, ROUTE_OF_9, 0x0A00_0000_0009_0002),
                leg: 1,
            },
        }
    }

    fn place_of(&mut self, who: Who) -> &mut Placed {
        match who {
            Who::Panel => &mut self.panel,
            Who::Seven => &mut self.seven,
            Who::Nine => &mut self.nine,
        }
    }

    // A board is unplugged and stands on another leg from then on; the box is not told.
    pub(crate) fn carried(&mut self, who: Who, leg: u8) {
        self.place_of(who).leg = leg;
    }

    pub(crate) fn restarts(&mut self, rt: &impl Print, who: Who) -> io::Result<()> {
        print!(rt; "  Initialization Complete: ")?;
        self.pass_on(rt, who, Call::Initialise)
    }

    pub(crate) fn announces(&mut self, rt: &impl Print, who: Who) -> io::Result<()> {
        for slot in 0..2 {
            print!(rt; "  slot {slot} identified: ")?;
            self.pass_on(rt, who, Call::Announce(slot))?;
        }
        Ok(())
    }

    // What a board writes goes to the box at its leg.
    fn pass_on(&mut self, rt: &impl Print, who: Who, call: Call) -> io::Result<()> {
        let placed = self.place_of(who);
        let done = placed.board.does(call, b"");
        let leg = placed.leg;
        let answer = self.gateway.hear(leg, done.written());
        println!(rt;
            "{}; lines in the table: {}",
            Legs(answer.sent),
            answer.count
        )
    }

    // The panel's reports go through the box, and each board on a leg that they are sent to looks at what reaches it.
    pub(crate) fn panel_tries(&self, rt: &impl Print) -> io::Result<()> {
        print!(rt; "  the panel sets the route of board 7: ")?;
        self.tries(rt, 0)?;
        print!(rt; "  the panel sets the route of board 9: ")?;
        self.tries(rt, 1)
    }

    fn tries(&self, rt: &impl Print, slot: usize) -> io::Result<()> {
        let mut panel = self.panel.board;
        let done = panel.does(Call::Produce(slot), b"");
        let report = done.written();
        let mut gateway = self.gateway;
        let sent = Legs(gateway.hear(self.panel.leg, report).sent);
        print!(rt; "{sent}")?;
        match (sent.has(self.seven.leg), sent.has(self.nine.leg)) {
            (true, true) => {
                let seven = self.seven.made_of(report);
                let nine = self.nine.made_of(report);
                println!(rt; "; board 7 {seven}, board 9 {nine}")
            }
            (true, false) => println!(rt; "; board 7 {}", self.seven.made_of(report)),
            (false, true) => println!(rt; "; board 9 {}", self.nine.made_of(report)),
            (false, false) => println!(rt; "; nothing moves"),
        }
    }
}

impl Placed {
    // What a board makes of the report that reached it.
    fn made_of(self, report: &[u8]) -> &'static str {
        let mut board = self.board;
        if board.does(Call::Receive, report).matches == 0 {
            "stands still"
        } else {
            "moves its points"
        }
    }
}
