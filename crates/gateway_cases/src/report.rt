// What is printed of a step.
use crate::totals;
use basics::Refusal;
use gateway::{Answer, Gateway, Head};
use gateway_rules::Reason;
use std::io;

// What a message came to, and the state after it.
pub(crate) fn told(rt: &impl Print, before: &Gateway, answer: &Answer) -> io::Result<()> {
    let after = &answer.gateway;
    let head = after.head;
    sent_or_refused(rt, answer)?;
    // Whether a refused message left the lists as they were, past the count too.
    if answer.refusal != 0 {
        if totals::of_everything(before) == totals::of_everything(after) {
            print!(rt; ", kept")?;
        } else {
            print!(rt; ", CHANGED")?;
        }
    }
    state(rt, head)?;
    if head.count > 8 {
        print!(rt; "; total {:016x}", totals::of_lines(after, head.count))?;
    }
    println!(rt; "")?;
    lines(rt, after)?;
    order(rt, after)?;
    print!(rt; "; sets")?;
    for set in &after.sets {
        print!(rt; " {set:x}")?;
    }
    println!(rt; "")
}

// The same of a start.
pub(crate) fn started(rt: &impl Print, answer: &Answer) -> io::Result<()> {
    sent_or_refused(rt, answer)?;
    state(rt, answer.gateway.head)?;
    println!(rt; "")
}

// A digit a port, or the refusal.
fn sent_or_refused(rt: &impl Print, answer: &Answer) -> io::Result<()> {
    print!(rt; "  ")?;
    if answer.refusal != 0 {
        return print!(rt; "refused {}", answer.refusal);
    }
    let mut rest = answer.sent;
    for _ in 0..answer.gateway.head.ports {
        print!(rt; "{}", rest % 2)?;
        rest /= 2;
    }
    Ok(())
}

// As the command that lays it out.
fn state(rt: &impl Print, head: Head) -> io::Result<()> {
    let block = head.automatic;
    print!(rt; "; box {:x} {:x}", head.ports, head.marks)?;
    print!(rt; " {:016x} {:x} {:x}", block.start, block.k, head.count)
}

// Of a long list the first four places and the last four are printed.
fn is_printed(place: usize, count: usize) -> bool {
    place < 4 || place >= count.saturating_sub(4)
}

fn lines(rt: &impl Print, gateway: &Gateway) -> io::Result<()> {
    let count = gateway.head.count;
    for place in 0..count.min(256) {
        if is_printed(place, count) {
            let port = gateway.ports[place];
            let node = gateway.nodes[place];
            let start = gateway.starts[place];
            let k = gateway.sizes[place];
            println!(rt; "    {place:x}: {port:x} {node:012x} {start:016x} {k:x}")?;
        }
    }
    Ok(())
}

// The order up to the count, of a long table the total too.
fn order(rt: &impl Print, gateway: &Gateway) -> io::Result<()> {
    let order = &gateway.order[..gateway.head.count.min(256)];
    print!(rt; "    order")?;
    for (place, number) in order.iter().enumerate() {
        if is_printed(place, order.len()) {
            print!(rt; " {number:x}")?;
        }
    }
    if order.len() > 8 {
        print!(rt; " total {:016x}", totals::of_order(order))?;
    }
    Ok(())
}

// The reason by its number, and the line that it names.
pub(crate) fn reason(rt: &impl Print, answer: Result<Reason, Refusal>) -> io::Result<()> {
    match answer {
        Ok(reason) => print!(rt; "  reason {}", u8::from(reason))?,
        Err(refusal) => print!(rt; "  refused {}", u8::from(refusal))?,
    }
    if let Ok(Reason::HeldBy(line)) = answer {
        let block = line.block;
        print!(rt; "; line {:x} {:012x}", line.place, line.node)?;
        print!(rt; " {:016x} {:x}", block.start, block.k)?;
    }
    println!(rt; "")
}
