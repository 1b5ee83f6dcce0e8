// Joining: what a frame, and each part of an event report, does to the joining state.
ghost use Rattle.std.specs.Prelude.{◌≡◌, ◌≢◌, false};
ghost use Rattle.numbers.specs.Numbers.{number_in};
ghost use Rattle.can_rules.specs.declared.Part.TheVariants.{Whole, Start, Middle, Last, OtherHeader};
ghost use Rattle.can_rules.specs.Frames.{part_in};
ghost use Rattle.can_rules.specs.Aliases.{listed, nobody};
ghost use Rattle.can_rules.specs.Joining.{bad_joining, join as join_of};
ghost use Rattle.can_aliases.specs.Parts.{list_in};
ghost use Rattle.can.specs.declared.Joining.{Joining};
ghost use Rattle.can.specs.States.{state_of, seen_in, seen_of, seen_left, part_seen, RefusalKeeps, NoPayloadIsZero, Left};

use crate::{Gathered, Joined, Joining};
use basics::Refusal;
use can_aliases::AliasList;
use can_rules::{Frame, Part};

// An event report that is handed out.
#[derive(Clone, Copy)]
pub(crate) struct Report {
    pub mti: u16,
    pub message: Gathered,
}

// A frame, in any list of aliases and any joining state.
pub fn join(aliases: &[u64], nodes: &[u64], state: Joining, frame: Frame) -> Joined
    ensures result_value { seen_in result ≡ seen_of (join_of (listed aliases.now nodes.now) (state_of state) frame) }
    ensures refusal_keeps { RefusalKeeps state result }
    ensures no_payload_is_zero { NoPayloadIsZero result }
{
    let list = AliasList { aliases, nodes };
    let mut joined = Joined {
        refusal: 0,
        mti: 0,
        message: Gathered::empty(0, 0),
        state,
    };
    match take(&list, &mut joined.state, frame) {
        Ok(Some(report)) => {
            joined.mti = report.mti;
            joined.message = report.message;
        }
        Ok(None) => {}
        Err(refusal) => joined.refusal = refusal.into(),
    }
    joined
}

// What a frame does to the joining state, and the report that it completes.
fn take(list: &AliasList, state: &mut Joining, frame: Frame) -> Result<Option<Report>, Refusal>
    ensures seen { seen_left result state.new ≡ seen_of (join_of (list_in list.now) (state_of state.old) frame) }
    ensures left { Left state.old result state.new }
{
    if list.out_of_bounds() || state.out_of_bounds() {
        return Err(Refusal::OutOfBounds);
    }
    let alias = (frame.header % 0x1000) as u64;
    let sender = list.node_for(alias).ok_or(Refusal::NotListed);
    match part_in(frame.header) {
        Part::Whole => whole(sender?, frame),
        Part::Start => start(state, sender?, frame),
        Part::Middle => middle(state, sender?, frame),
        Part::Last => last(state, sender?, frame),
        Part::OtherHeader => Err(Refusal::OtherHeader),
    }
}

fn part_in(header: u32) -> Part
    ensures { result ≡ part_in header }
{
    match header / 0x1000 {
        0x195B4 => Part::Whole,
        0x19F16 => Part::Start,
        0x19F15 => Part::Middle,
        0x19F14 => Part::Last,
        _ => Part::OtherHeader,
    }
}

fn event_in(frame: Frame) -> u64
    ensures { result ≡ number_in frame.bytes }
{
    numbers::read_at(&frame.bytes, 0, 8)
}

// 05B4: the message at once; it drops nothing.
fn whole(sender: u64, frame: Frame) -> Result<Option<Report>, Refusal>
    requires { sender ≢ nobody }
    ensures { (j : Joining) → (seen_left result j ≡ part_seen j sender frame Whole) × Left j result j }
{
    if frame.length != 8 {
        return Err(Refusal::WrongLength);
    }
    Ok(Some(Report {
        mti: 0x05B4,
        message: Gathered::empty(sender, event_in(frame)),
    }))
}

// 0F16: what its sender had begun is dropped, and this is begun.
fn start(state: &mut Joining, sender: u64, frame: Frame) -> Result<Option<Report>, Refusal>
    requires { (sender ≢ nobody) × (bad_joining (state_of state.old) ≡ false) }
    ensures { (seen_left result state.new ≡ part_seen state.old sender frame Start) × Left state.old result state.new }
{
    if frame.length != 8 {
        return Err(Refusal::WrongLength);
    }
    match state.place_of(sender) {
        Some(place) => state.remove(place),
        None => {
            if state.count == 2 {
                return Err(Refusal::ThirdSender);
            }
        }
    }
    state.begin(sender, event_in(frame));
    Ok(None)
}

// 0F15: eight bytes more.
fn middle(state: &mut Joining, sender: u64, frame: Frame) -> Result<Option<Report>, Refusal>
    requires { (sender ≢ nobody) × (bad_joining (state_of state.old) ≡ false) }
    ensures { (seen_left result state.new ≡ part_seen state.old sender frame Middle) × Left state.old result state.new }
{
    if frame.length != 8 {
        return Err(Refusal::WrongLength);
    }
    let place = state.place_of(sender).ok_or(Refusal::NotBegun)?;
    if 256 < state.at(place).length + 8 {
        state.remove(place);
        return Err(Refusal::PayloadTooLong);
    }
    state.grow(place, &frame.bytes);
    Ok(None)
}

// 0F14: with these one to eight bytes the report is whole, and goes out.
fn last(state: &mut Joining, sender: u64, frame: Frame) -> Result<Option<Report>, Refusal>
    requires { (sender ≢ nobody) × (bad_joining (state_of state.old) ≡ false) }
    ensures { (seen_left result state.new ≡ part_seen state.old sender frame Last) × Left state.old result state.new }
{
    let size = frame.length as usize;
    if size == 0 || 8 < size {
        return Err(Refusal::WrongLength);
    }
    let place = state.place_of(sender).ok_or(Refusal::NotBegun)?;
    let mut message = *state.at(place);
    state.remove(place);
    if 256 < message.length + size {
        return Err(Refusal::PayloadTooLong);
    }
    message.push(&frame.bytes[..size]);
    Ok(Some(Report {
        mti: 0x0F14,
        message,
    }))
}
