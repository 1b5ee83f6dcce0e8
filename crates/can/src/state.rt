// The joining state: what is asked of it, and what becomes of it.
ghost use Rattle.std.specs.Prelude.{◌≡◌, ◌+◌, ◌≤◌, ◌<◌, false, [], ◌∷◌, ◌++◌, length, replicate, remove, slice_set, MatchOption};
ghost use Rattle.can_rules.specs.Joining.{begun, bad_joining, has_begun, of_sender};
ghost use Rattle.can.specs.States.{begun_of, with_more, gathered_at, state_of, place_number, empty_of, nothing_begun, Only};

use crate::{Gathered, Joining};

// A place of the two for what is begun.
#[derive(Clone, Copy)]
pub(crate) enum Place {
    First,
    Second,
}

impl Joining {
    // No sender has begun a message.
    pub fn new() -> Joining
        ensures state_value { state_of result ≡ [] }
        ensures zeros { result ≡ nothing_begun }
    {
        Joining {
            count: 0,
            first: Gathered::empty(0, 0),
            second: Gathered::empty(0, 0),
        }
    }

    pub(crate) fn out_of_bounds(&self) -> bool
        ensures { result ≡ bad_joining (state_of self.now) }
    {
        match self.count {
            0 => false,
            1 => 256 < self.first.length,
            2 => {
                256 < self.first.length
                    || 256 < self.second.length
                    || self.second.sender == self.first.sender
            }
            _ => true,
        }
    }

    // Where what a sender has begun stands.
    pub(crate) fn place_of(&self, sender: u64) -> Option<Place>
        requires { bad_joining (state_of self.now) ≡ false }
        ensures { MatchOption result (has_begun sender (state_of self.now) ≡ false) (λ p. Only (of_sender sender) (state_of self.now) (place_number p)) }
    {
        if 0 < self.count && self.first.sender == sender {
            Some(Place::First)
        } else if 1 < self.count && self.second.sender == sender {
            Some(Place::Second)
        } else {
            None
        }
    }

    pub(crate) fn at(&self, place: Place) -> &Gathered
        ensures { result.now ≡ gathered_at self.now (place_number place) }
    {
        match place {
            Place::First => &self.first,
            Place::Second => &self.second,
        }
    }

    pub(crate) fn remove(&mut self, place: Place)
        requires { (place_number place < self.old.count) × (self.old.count ≤ 2) }
        ensures { state_of self.new ≡ remove (state_of self.old) (place_number place) }
    {
        match place {
            Place::First => self.first = self.second,
            Place::Second => {}
        }
        self.count -= 1;
    }

    // A new message is begun, after the others.
    pub(crate) fn begin(&mut self, sender: u64, event: u64)
        requires { self.old.count < 2 }
        ensures { state_of self.new ≡ state_of self.old ++ (begun sender event [] ∷ []) }
    {
        let new = Gathered::empty(sender, event);
        if self.count == 0 {
            self.first = new;
        } else {
            self.second = new;
        }
        self.count += 1;
    }

    // What stands at a place grows by a frame's bytes.
    pub(crate) fn grow(&mut self, place: Place, bytes: &[u8])
        requires place_in_use { (place_number place < self.old.count) × (self.old.count ≤ 2) }
        requires room { (gathered_at self.old (place_number place)).length + length bytes.now ≤ 256 }
        ensures { state_of self.new ≡ slice_set (state_of self.old) (place_number place) (with_more (gathered_at self.old (place_number place)) bytes.now) }
    {
        match place {
            Place::First => self.first.push(bytes),
            Place::Second => self.second.push(bytes),
        }
    }
}

impl Gathered {
    pub(crate) fn empty(sender: u64, event: u64) -> Gathered
        ensures result_value { begun_of result ≡ begun sender event [] }
        ensures payload_value { result.payload ≡ replicate 256 0 }
        ensures all { result ≡ empty_of sender event }
    {
        Gathered {
            sender,
            event,
            length: 0,
            payload: [0; 256],
        }
    }

    pub(crate) fn push(&mut self, bytes: &[u8])
        requires { self.old.length + length bytes.now ≤ 256 }
        ensures grown { begun_of self.new ≡ with_more self.old bytes.now }
        ensures longer { self.new.length ≡ self.old.length + length bytes.now }
    {
        let end = self.length + bytes.len();
        self.payload[self.length..end].copy_from_slice(bytes);
        self.length = end;
    }
}
