// A report with 20 bytes of payload comes in as frames, goes through the box, and goes out as frames on the legs that want it, where it is joined again.
#![tactic(auto)]

mod frames;
mod legs;
mod reports;

use can::Joining;
use can_rules::Frame;
use gateway::Gateway;
use legs::Leg;
use reports::Report;
use std::io;

const EVENT: u64 = 0x0A00_0000_0007_0001;

const EVENT_OF_6: u64 = 0x0A00_0000_0006_0001;

const EVENT_OF_8: u64 = 0x0A00_0000_0008_0001;

const START_OF_7: u32 = 0x19F1_6707;

const MIDDLE_OF_7: u32 = 0x19F1_5707;

const LAST_OF_7: u32 = 0x19F1_4707;

const START_OF_6: u32 = 0x19F1_6606;

const LAST_OF_6: u32 = 0x19F1_4606;

// What could not be written is told once: nothing follows the gap.
fn main(rt: HostRuntime) {
    if day(&rt).is_err() {
        let _ = eprintln!(rt; "can_cases: the output is not whole");
    }
}

fn day(rt: &impl Print) -> io::Result<()> {
    println!(rt;
        "The box has 4 legs. Boards 5 and 9, on legs 2 and 3, announce board 7's event; board 8, on leg 1, announces its own"
    )?;
    let mut gateway = gateway::start(4, range::HOUSE).gateway;
    announce(&mut gateway, 2, 0x0A00_0000_0005, EVENT);
    announce(&mut gateway, 3, 0x0A00_0000_0009, EVENT);
    announce(&mut gateway, 1, 0x0A00_0000_0008, EVENT_OF_8);
    println!(rt; "Board 7's report comes in on leg 0; board 6 begins one in between")?;
    let mut joining = Joining::new();
    for (header, length, bytes) in [
        (START_OF_7, 8, EVENT.to_be_bytes()),
        (MIDDLE_OF_7, 8, [1, 2, 3, 4, 5, 6, 7, 8]),
        (START_OF_6, 8, EVENT_OF_6.to_be_bytes()),
        (MIDDLE_OF_7, 8, [9, 10, 11, 12, 13, 14, 15, 16]),
        (LAST_OF_7, 4, [17, 18, 19, 20, 0xEE, 0xEE, 0xEE, 0xEE]),
    ] {
        let frame = Frame {
            header,
            length,
            bytes,
        };
        comes_in(rt, &gateway, &mut joining, frame)?;
    }
    println!(rt; "Board 6 ends its own: nobody asked for its event")?;
    let last = Frame {
        header: LAST_OF_6,
        length: 1,
        bytes: [0xAB, 0, 0, 0, 0, 0, 0, 0],
    };
    comes_in(rt, &gateway, &mut joining, last)
}

// Consumer Identified comes in on a leg.
fn announce(gateway: &mut Gateway, leg: u8, board: u64, event: u64) {
    let mut bytes = [0; 16];
    numbers::write_at(0x04C4, 2, 0, &mut bytes);
    numbers::write_at(board, 6, 2, &mut bytes);
    numbers::write_at(event, 8, 8, &mut bytes);
    gateway.hear(leg, &bytes);
}

// A frame comes in on leg 0; what is handed out goes to the box.
fn comes_in(
    rt: &impl Print,
    gateway: &Gateway,
    joining: &mut Joining,
    frame: Frame,
) -> io::Result<()> {
    let joined = Leg::at(0).join(rt, joining, frame)?;
    println!(rt;
        "  refusal {}, unfinished {}",
        joined.refusal, joining.count
    )?;
    match Report::handed_out(joined) {
        Some(report) => frames::passed_on(rt, gateway, report),
        None => Ok(()),
    }
}
