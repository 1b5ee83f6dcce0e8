// What is printed of a case: the call, and what it answers.
use basics::Refusal;
use range::{Block, Comparison};
use std::{fmt, io};

#[derive(Clone, Copy)]
struct Shown(Block);

impl fmt::Display for Shown {
    fn fmt<W: fmt::Write>(&self, f: &mut fmt::Formatter<W>) -> fmt::Result {
        let block = self.0;
        write!(f, "{:x} k {}", block.start, block.k)
    }
}

pub(crate) fn block_of(rt: &impl Print, r: u64) -> io::Result<()> {
    let block = Shown(range::block_of(r));
    println!(rt; "block_of {r:x} is {block}")
}

pub(crate) fn single(rt: &impl Print, e: u64) -> io::Result<()> {
    let block = Shown(range::single(e));
    println!(rt; "single {e:x} is {block}")
}

pub(crate) fn is_block(rt: &impl Print, b: Block) -> io::Result<()> {
    let answer = yes_or_no(range::is_block(b));
    println!(rt; "is_block {}: {answer}", Shown(b))
}

pub(crate) fn number_of(rt: &impl Print, b: Block) -> io::Result<()> {
    print!(rt; "number_of {}: ", Shown(b))?;
    match range::number_of(b) {
        Ok(r) => println!(rt; "{r:x}"),
        Err(refusal) => refused(rt, refusal),
    }
}

pub(crate) fn holds(rt: &impl Print, b: Block, e: u64) -> io::Result<()> {
    let block = Shown(b);
    print!(rt; "holds {block}, {e:x}: ")?;
    match range::holds(b, e) {
        Ok(yes) => println!(rt; "{}", yes_or_no(yes)),
        Err(refusal) => refused(rt, refusal),
    }
}

pub(crate) fn compare(rt: &impl Print, a: Block, b: Block) -> io::Result<()> {
    print!(rt; "compare {}, {}: ", Shown(a), Shown(b))?;
    match range::compare(a, b) {
        Ok(Comparison::Equal) => println!(rt; "equal"),
        Ok(Comparison::FirstInside) => println!(rt; "first inside second"),
        Ok(Comparison::SecondInside) => println!(rt; "second inside first"),
        Ok(Comparison::Apart) => println!(rt; "apart"),
        Err(refusal) => refused(rt, refusal),
    }
}

fn refused(rt: &impl Print, refusal: Refusal) -> io::Result<()> {
    println!(rt; "refused {}", u8::from(refusal))
}

fn yes_or_no(yes: bool) -> &'static str {
    if yes { "yes" } else { "no" }
}
