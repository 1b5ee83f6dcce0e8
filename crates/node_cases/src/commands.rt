// The commands of the case file.
use crate::boards::{Filling, Lengths, Message};
use case_files::Places;
use node_rules::{Call, Node};
use range::Block;

#[derive(Clone, Copy)]
pub(crate) enum Command {
    Keep,
    Again,
    Record(Node),
    Slots(Filling),
    Lengths(Lengths),
    // The bytes of the message and how much room is lent.
    Call(Call, Message, u64),
}

impl Command {
    // A name counts by its first four letters.
    pub(crate) fn read(text: &[u8]) -> Option<Command> {
        let line = case_files::read(text)?;
        let numbers = &line.numbers[..line.count.min(15)];
        let command = match (&line.name, numbers, line.message) {
            (b"keep", [], None) => Command::Keep,
            (b"agai", [], None) => Command::Again,
            (b"reco", [id, state, start, k], None) => Command::Record(Node {
                id: *id,
                state: byte(*state),
                automatic: Block {
                    start: *start,
                    k: byte(*k),
                },
            }),
            (b"slot", [first, last, stride, role, event, status, mark, step], None) => {
                Command::Slots(Filling {
                    places: Places {
                        first: *first,
                        last: *last,
                        stride: *stride,
                    },
                    role: byte(*role),
                    event: *event,
                    status: byte(*status),
                    mark: byte(*mark),
                    step: *step,
                })
            }
            (b"leng", [roles, events, statuses, marks], None) => Command::Lengths(Lengths {
                roles: *roles,
                events: *events,
                statuses: *statuses,
                marks: *marks,
            }),
            (b"init", [room], None) => Command::Call(Call::Initialise, Message::none(), *room),
            (b"anno", [slot, room], None) => {
                Command::Call(Call::Announce(*slot as usize), Message::none(), *room)
            }
            (b"prod", [slot, room], None) => {
                Command::Call(Call::Produce(*slot as usize), Message::none(), *room)
            }
            (b"\0set", [slot, status], None) => {
                let call = Call::SetStatus(*slot as usize, byte(*status));
                Command::Call(call, Message::none(), 0)
            }
            (b"rece", [room], Some(length)) => {
                Command::Call(Call::Receive, Message::new(line.bytes, length, 0), *room)
            }
            (b"long", [room, more], Some(length)) => {
                Command::Call(
                    Call::Receive,
                    Message::new(line.bytes, length, *more),
                    *room,
                )
            }
            _ => return None,
        };
        Some(command)
    }
}

// The gateway's cases have the same line: one of both, in a crate below, would be longer with its contract and edits.
fn byte(n: u64) -> u8 {
    (n % 256) as u8
}
