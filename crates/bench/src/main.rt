// The bench: two boards on one leg of a box, restarted in turn, one of them then carried to another leg, and a panel that tries them after each step.
#![tactic(auto)]

mod boards;
mod legs;
mod yard;

use std::io;
use yard::{Who, Yard};

// What could not be written is told once: nothing follows the gap.
fn main(rt: HostRuntime) {
    if day(&rt).is_err() {
        let _ = eprintln!(rt; "bench: the output is not whole");
    }
}

fn day(rt: &impl Print) -> io::Result<()> {
    println!(rt; "The box has 4 legs. The panel is on leg 0, boards 7 and 9 are on leg 1.")?;
    let mut yard = Yard::laid_out();
    morning(rt, &mut yard)?;
    println!(rt; "Board 7 restarts")?;
    yard.restarts(rt, Who::Seven)?;
    yard.panel_tries(rt)?;
    println!(rt; "Board 7 announces again")?;
    yard.announces(rt, Who::Seven)?;
    yard.panel_tries(rt)?;
    println!(rt; "Board 9 restarts")?;
    yard.restarts(rt, Who::Nine)?;
    yard.panel_tries(rt)?;
    println!(rt; "Board 9 announces again")?;
    yard.announces(rt, Who::Nine)?;
    yard.panel_tries(rt)?;
    midday(rt, &mut yard)?;
    moved(rt, &mut yard)
}

fn morning(rt: &impl Print, yard: &mut Yard) -> io::Result<()> {
    println!(rt; "The panel comes up and identifies the two routes that it sends")?;
    yard.restarts(rt, Who::Panel)?;
    yard.announces(rt, Who::Panel)?;
    println!(rt; "Before any board is there")?;
    yard.panel_tries(rt)?;
    println!(rt; "Board 7 comes up and announces")?;
    yard.restarts(rt, Who::Seven)?;
    yard.announces(rt, Who::Seven)?;
    println!(rt; "Board 9 comes up and announces")?;
    yard.restarts(rt, Who::Nine)?;
    yard.announces(rt, Who::Nine)?;
    println!(rt; "Both boards are there")?;
    yard.panel_tries(rt)
}

// The secretary's story.
fn midday(rt: &impl Print, yard: &mut Yard) -> io::Result<()> {
    println!(rt;
        "The yard: board 7 restarts at midday; board 9 has not, and its points still move"
    )?;
    yard.restarts(rt, Who::Seven)?;
    yard.panel_tries(rt)
}

// The club's: what a board had announced on the leg that it left goes when it comes up on another.
fn moved(rt: &impl Print, yard: &mut Yard) -> io::Result<()> {
    println!(rt; "Board 7 announces again, and is then carried from leg 1 to leg 3")?;
    yard.announces(rt, Who::Seven)?;
    yard.carried(Who::Seven, 3);
    yard.panel_tries(rt)?;
    println!(rt; "Board 7 comes up on leg 3")?;
    yard.restarts(rt, Who::Seven)?;
    yard.panel_tries(rt)?;
    println!(rt; "Board 7 announces there")?;
    yard.announces(rt, Who::Seven)?;
    yard.panel_tries(rt)
}
