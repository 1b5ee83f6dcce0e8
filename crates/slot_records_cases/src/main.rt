// Puts the board of a board file through its calls by records: what it prints is what rehearse prints.
#![tactic(auto)]

mod boards;
mod own;
mod steps;

use boards::Board;
use std::io;
use steps::Step;

fn main(rt: HostRuntime) -> io::Result<()> {
    let file = streams::Input::read(&mut rt.stdin());
    play(&rt, file.bytes())
}

fn play(rt: &impl Print, file: &[u8]) -> io::Result<()> {
    let mut board = Board::laid_out(file);
    let mut rest = steps::calls_of(file);
    for k in 0..1000 {
        if rest.is_empty() {
            return Ok(());
        }
        let step = Step::first_of(rest);
        board.make(rt, k, step)?;
        rest = rest.get(step.length..).unwrap_or(b"");
    }
    Ok(())
}
