// The commands of the case file.
use crate::laid_out::{Filling, laid_out};
use crate::lent::Lengths;
use crate::report;
use case_files::Places;
use gateway::{Answer, Gateway, Head};
use range::Block;
use std::io;

#[derive(Clone, Copy)]
pub(crate) struct Message {
    bytes: [u8; 512],
    length: usize,
}

impl Message {
    pub(crate) fn bytes(&self) -> &[u8] {
        &self.bytes[..self.length.min(512)]
    }

    // The last byte one more.
    fn raise(&mut self) {
        if self.length > 0 && self.length <= 512 {
            let last = self.length - 1;
            self.bytes[last] = self.bytes[last].wrapping_add(1);
        }
    }
}

#[derive(Clone, Copy)]
pub(crate) enum Command {
    Start(u8, u64),
    LaidOut(Head),
    Lines(Filling),
    // A place of the order or of the sets, and what is put there.
    Order(u64, u8),
    Sets(u64, u64),
    // How many times, and at which port.
    Receive(u64, u8, Message),
    ReceiveLent(Lengths, u8, Message),
    // For the report that arrives at a port, and for the asked port.
    Why(Lengths, u8, u8, Message),
}

impl Command {
    // A name counts by its first four letters.
    pub(crate) fn read(text: &[u8]) -> Option<Command> {
        let line = case_files::read(text)?;
        let numbers = &line.numbers[..line.count.min(15)];
        match line.message {
            None => Command::without_message(&line.name, numbers),
            Some(length) => {
                let message = Message {
                    bytes: line.bytes,
                    length,
                };
                Command::with_message(&line.name, numbers, message)
            }
        }
    }

    fn without_message(name: &[u8; 4], numbers: &[u64]) -> Option<Command> {
        let command = match (name, numbers) {
            (b"star", [ports, number]) => Command::Start(byte(*ports), *number),
            (b"\0box", [ports, marks, start, k, count]) => Command::LaidOut(Head {
                ports: byte(*ports),
                marks: byte(*marks),
                automatic: Block {
                    start: *start,
                    k: byte(*k),
                },
                count: *count as usize,
            }),
            (b"line", [first, last, stride, port, node, start, k, step]) => {
                Command::Lines(Filling {
                    places: Places {
                        first: *first,
                        last: *last,
                        stride: *stride,
                    },
                    port: byte(*port),
                    node: *node,
                    start: *start,
                    k: byte(*k),
                    step: *step,
                })
            }
            (b"orde", [place, number]) => Command::Order(*place, byte(*number)),
            (b"sets", [place, set]) => Command::Sets(*place, *set),
            _ => return None,
        };
        Some(command)
    }

    fn with_message(name: &[u8; 4], numbers: &[u64], message: Message) -> Option<Command> {
        match (name, numbers) {
            (b"\0\0at", [port]) => Some(Command::Receive(1, byte(*port), message)),
            (b"repe", [times, port]) => Some(Command::Receive(*times, byte(*port), message)),
            (b"\0why", [port, asked]) => {
                let lengths = Lengths::whole();
                Some(Command::Why(lengths, byte(*port), byte(*asked), message))
            }
            (_, [nodes, starts, ports, sizes, order, sets, rest @ ..]) => {
                let lengths = Lengths {
                    nodes: *nodes,
                    starts: *starts,
                    ports: *ports,
                    sizes: *sizes,
                    order: *order,
                    sets: *sets,
                };
                Command::on_lent_lists(name, lengths, rest, message)
            }
            _ => None,
        }
    }

    fn on_lent_lists(
        name: &[u8; 4],
        lengths: Lengths,
        rest: &[u64],
        message: Message,
    ) -> Option<Command> {
        match (name, rest) {
            (b"lent", [port]) => Some(Command::ReceiveLent(lengths, byte(*port), message)),
            (b"\0why", [port, asked]) => {
                Some(Command::Why(lengths, byte(*port), byte(*asked), message))
            }
            _ => None,
        }
    }

    pub(crate) fn obey(self, rt: &impl Print, gateway: &mut Gateway) -> io::Result<()> {
        match self {
            Command::Start(ports, number) => {
                let answer = gateway::start(ports, number);
                *gateway = answer.gateway;
                report::started(rt, &answer)
            }
            Command::LaidOut(head) => {
                *gateway = laid_out(head);
                Ok(())
            }
            Command::Lines(filling) => {
                filling.put_into(gateway);
                Ok(())
            }
            Command::Order(place, number) => {
                gateway.order[(place % 256) as usize] = number;
                Ok(())
            }
            Command::Sets(place, set) => {
                gateway.sets[(place % 9) as usize] = set;
                Ok(())
            }
            Command::Receive(times, port, message) => {
                let answer = received(*gateway, times, port, message);
                report::told(rt, gateway, &answer)?;
                *gateway = answer.gateway;
                Ok(())
            }
            Command::ReceiveLent(lengths, port, message) => {
                let answer = lengths.receive(gateway, port, message.bytes());
                report::told(rt, gateway, &answer)?;
                *gateway = answer.gateway;
                Ok(())
            }
            Command::Why(lengths, port, asked, message) => {
                report::reason(rt, lengths.why(gateway, port, asked, message.bytes()))
            }
        }
    }
}

// The message so many times, its last byte one more each time; the answer is the last.
fn received(gateway: Gateway, times: u64, port: u8, message: Message) -> Answer {
    let mut message = message;
    let mut answer = Answer {
        refusal: 0,
        sent: 0,
        gateway,
    };
    for _ in 0..times {
        answer = gateway::receive(answer.gateway, port, message.bytes());
        message.raise();
    }
    answer
}

// The node's cases have the same line: one of both, in a crate below, would be longer with its contract and edits.
fn byte(n: u64) -> u8 {
    (n % 256) as u8
}
