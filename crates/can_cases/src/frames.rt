// A report through the box and out as frames.
use crate::legs::Leg;
use crate::reports::{Hex, Report};
use can::Joining;
use can_rules::Frame;
use gateway::Gateway;
use std::io;

// What is handed out goes to the box as a message, and out as frames on each leg that it is sent to.
pub(crate) fn passed_on(rt: &impl Print, gateway: &Gateway, report: Report) -> io::Result<()> {
    let mut bytes = [0; 272];
    let length = report.write(&mut bytes).min(272);
    let message = &bytes[..length];
    println!(rt; "  handed out: {}", Hex(message))?;
    let mut after = *gateway;
    let sent = after.hear(0, message).sent;
    println!(rt; "  the box sends it to so many legs: {}", sent.count_ones())?;
    for leg in 1..4 {
        if (sent >> leg) % 2 == 1 {
            println!(rt; "  leg {leg} gets")?;
            goes_out(rt, Leg::at(leg), report)?;
        }
    }
    Ok(())
}

// The board at the end of a leg joins the frames again.
fn goes_out(rt: &impl Print, leg: Leg, report: Report) -> io::Result<()> {
    let mut out = [0; 429];
    let length = report.split(leg, &mut out).min(429);
    let mut joining = Joining::new();
    for written in out[..length].as_chunks().0 {
        arrives(rt, leg, &mut joining, written)?;
    }
    Ok(())
}

fn arrives(rt: &impl Print, leg: Leg, joining: &mut Joining, written: &[u8; 13]) -> io::Result<()> {
    let joined = leg.join(rt, joining, frame_in(written))?;
    println!(rt; "")?;
    let Some(report) = Report::handed_out(joined) else {
        return Ok(());
    };
    let mut bytes = [0; 272];
    let length = report.write(&mut bytes).min(272);
    println!(rt; "  joined there: {}", Hex(&bytes[..length]))
}

fn frame_in(written: &[u8; 13]) -> Frame {
    let mut bytes = [0; 8];
    bytes.copy_from_slice(&written[5..]);
    Frame {
        header: u32::from_be_bytes([written[0], written[1], written[2], written[3]]),
        length: written[4],
        bytes,
    }
}
