// The lines of the table, which stand in four lists.
ghost use Rattle.std.specs.Prelude.{◌≡◌, ◌⊎◌, true, false, [], ◌∷◌, ◌≤◌, ◌<◌, length};
ghost use Rattle.index_rules.specs.Agreeing.{Falls};
ghost use Rattle.range.specs.Range.{is_block, in_block};
ghost use Rattle.gateway_rules.specs.Step.{within as within_of};
ghost use Rattle.basics.specs.Lists.{any, without};
ghost use Rattle.gateway.specs.Answers.{stands_as, goes_by, Comparable};
ghost use Rattle.gateway.specs.Indexing.{Level};
ghost use Rattle.gateway.specs.State.{line_at, lines_in, lines_of, lists_of, no_block};
ghost use Rattle.gateway.specs.Lent.{state_in, state_seen, SameBox, PutAt, SameIndex};

use crate::table::{Table, TableView};
use gateway_rules::Line;
use range::{Block, Comparison};

// How a line stands to those of the table: inside one, else holding some, else new (document 02, W4).
#[derive(Clone, Copy)]
pub(crate) enum Standing {
    Covered,
    Holding,
    New,
}

// Which lines are taken out: those of a node, or those that a line holds.
#[derive(Clone, Copy)]
pub(crate) enum Gone {
    OfNode(u64),
    HeldBy(Line),
}

// In place of a fall: no number falls so far.
const GONE: u16 = 256;

impl TableView<'_> {
    pub(crate) fn line_at(&self, i: usize) -> Line
        requires { i < 256 }
        ensures { result ≡ line_at (lists_of (state_seen self.now)) i }
    {
        Line {
            port: self.ports[i],
            node: self.nodes[i],
            block: Block {
                start: self.starts[i],
                k: self.sizes[i],
            },
        }
    }

    pub(crate) fn looked_for(&self, l: Line) -> Standing
        requires block_value { is_block l.block ≡ true }
        requires blocks { any no_block (lines_of (state_seen self.now)) ≡ false }
        ensures { result ≡ stands_as (lines_of (state_seen self.now)) l }
    {
        let mut holding = false;
        for i in 0..self.head.count {
            let x = self.line_at(i);
            // Of another node's line nothing else is asked.
            if x.node != l.node {
                continue;
            }
            if within(l, x) {
                return Standing::Covered;
            }
            if within(x, l) {
                holding = true;
            }
        }
        if holding {
            Standing::Holding
        } else {
            Standing::New
        }
    }

    // How many lines stand before the first that goes; the count where none goes.
    fn before_gone(&self, gone: Gone) -> usize
        requires { Comparable gone (lines_of (state_seen self.now)) }
        ensures upper_bound { (result ≤ self.now.head.count) × (any (goes_by gone) (lines_in result (lists_of (state_seen self.now))) ≡ false) }
        ensures fact { (result ≡ self.now.head.count) ⊎ (goes_by gone (line_at (lists_of (state_seen self.now)) result) ≡ true) }
    {
        for i in 0..self.head.count {
            if goes(self.line_at(i), gone) {
                return i;
            }
        }
        self.head.count
    }
}

impl Table<'_> {
    pub(crate) fn put_line(&mut self, i: usize, l: Line)
        requires { i < 256 }
        ensures same { SameBox self.old self.new }
        ensures put { PutAt i l (state_in self.old) (state_in self.new) }
    {
        self.nodes[i] = l.node;
        self.starts[i] = l.block.start;
        self.ports[i] = l.port;
        self.sizes[i] = l.block.k;
    }

    // One pass, the rest keeping their order: it goes on where the first that goes was found, and writes each that stays behind it once, and by how much its number falls.
    pub(crate) fn take_out(&mut self, falls: &mut [u16; 256], gone: Gone)
        requires level { Level falls.old }
        requires comparable { Comparable gone (lines_of (state_in self.old)) }
        ensures same { SameBox self.old self.new }
        ensures marks { self.new.head.marks ≡ self.old.head.marks }
        ensures index { SameIndex (state_in self.old) (state_in self.new) }
        ensures lines { lines_of (state_in self.new) ≡ without (goes_by gone) (lines_of (state_in self.old)) }
        ensures falls { Falls (λ p. goes_by gone (line_at (lists_of (state_in self.old)) p)) self.old.head.count falls.new }
    {
        let first = self.view().before_gone(gone);
        let mut j = first;
        for place in first..self.head.count {
            let l = self.view().line_at(place);
            if goes(l, gone) {
                falls[place] = GONE;
                continue;
            }
            self.put_line(j, l);
            falls[place] = (place - j) as u16;
            j += 1;
        }
        self.head.count = j;
    }
}

// Whether one line is inside another, or equal to it.
fn within(a: Line, b: Line) -> bool
    requires { (is_block a.block ≡ true) × (is_block b.block ≡ true) }
    ensures { result ≡ within_of a b }
{
    if a.port != b.port {
        return false;
    }
    if a.node != b.node {
        return false;
    }
    matches!(
        range::compare(a.block, b.block),
        Ok(Comparison::Equal | Comparison::FirstInside)
    )
}

// Whether an event is one of a block's.
pub(crate) fn holds(block: Block, e: u64) -> bool
    requires { is_block block ≡ true }
    ensures { result ≡ in_block block e }
{
    range::holds(block, e).unwrap_or(false)
}

fn goes(l: Line, gone: Gone) -> bool
    requires { Comparable gone (l ∷ []) }
    ensures { result ≡ goes_by gone l }
{
    match gone {
        Gone::OfNode(node) => l.node == node,
        Gone::HeldBy(holder) => within(l, holder),
    }
}
