// Event ID ranges (001 section 4): blocks, range numbers and what they hold.
#![tactic(auto)]

ghost use Rattle.std.specs.Prelude.{◌≡◌, ◌-◌, ◌*◌, ◌/◌, ◌^◌, ◌≤◌, true, false};
ghost use Rattle.basics.specs.Refusals.{in_numbers, told_or};
ghost use Rattle.range.specs.Range.{run as run_of, is_block, inside as inside_of, block_of, single as single_of};
ghost use Rattle.range.specs.Answer.{number_told, holds_told};
ghost use Rattle.range.specs.Comparing.{comparison};

use basics::Refusal;

// The house default for the automatic block's range number.
pub const HOUSE: u64 = 0x0100_0000_0000_FFFF;

// 2^k numbers from start on; is_block tells which values are blocks.
#[repr(C)]
#[derive(Clone, Copy, PartialEq, Eq)]
pub struct Block {
    pub start: u64,
    pub k: u8,
}

// How two blocks lie to each other, by document 02's numbers.
#[derive(Clone, Copy, PartialEq, Eq)]
pub enum Comparison {
    Equal = 1,
    FirstInside,
    SecondInside,
    Apart,
}

// The block of any number: 0 and all ones are every event.
pub fn block_of(r: u64) -> Block
    ensures { result ≡ block_of r }
{
    let k = run(r);
    Block {
        start: prefix(r, k),
        k,
    }
}

// The block of one event.
pub fn single(e: u64) -> Block
    ensures { result ≡ single_of e }
{
    Block { start: e, k: 0 }
}

// Whether k is at most 64 and the start a multiple of 2^k: no start has more than 64 zeros, so one test says both.
pub fn is_block(b: Block) -> bool
    ensures { result ≡ is_block b }
{
    b.k <= b.start.trailing_zeros() as u8
}

// The range number that a block is written as, or refusal 14.
pub fn number_of(b: Block) -> Result<u64, Refusal>
    ensures { told_or 0 (in_numbers result) ≡ number_told b }
{
    if b.k == 0 || !is_block(b) {
        return Err(Refusal::NoBlock);
    }
    if b.k == 64 {
        return Ok(u64::MAX);
    }
    if (b.start >> b.k) % 2 == 0 {
        Ok(b.start | mask(b.k))
    } else {
        Ok(b.start)
    }
}

// Whether an event is one of a block's, or refusal 14. A start that is a prefix is a multiple of 2^k, so only a no and a refusal are told apart by is_block.
pub fn holds(b: Block, e: u64) -> Result<bool, Refusal>
    ensures { told_or false (in_numbers result) ≡ holds_told b e }
{
    if b.k > 64 {
        return Err(Refusal::NoBlock);
    }
    if prefix(e, b.k) == b.start {
        return Ok(true);
    }
    if is_block(b) {
        Ok(false)
    } else {
        Err(Refusal::NoBlock)
    }
}

// How two blocks lie to each other, or refusal 14.
pub fn compare(a: Block, b: Block) -> Result<Comparison, Refusal>
    ensures { result ≡ comparison a b }
{
    if !is_block(a) || !is_block(b) {
        return Err(Refusal::NoBlock);
    }
    Ok(match (inside(a, b), inside(b, a)) {
        (true, true) => Comparison::Equal,
        (true, false) => Comparison::FirstInside,
        (false, true) => Comparison::SecondInside,
        (false, false) => Comparison::Apart,
    })
}

// Whether one block is inside another, or equal to it: it is no larger, and its start is one of the other's numbers.
fn inside(a: Block, b: Block) -> bool
    requires { (is_block a ≡ true) × (is_block b ≡ true) }
    ensures { result ≡ inside_of a b }
{
    a.k <= b.k && prefix(a.start, b.k) == b.start
}

// How many of the lowest bits are equal to the lowest one.
fn run(r: u64) -> u8
    ensures { result ≡ run_of r }
{
    if r % 2 == 0 {
        r.trailing_zeros() as u8
    } else {
        (!r).trailing_zeros() as u8
    }
}

// The low k bits. The mask of all 64 stands apart, since no shift makes it.
fn mask(k: u8) -> u64
    requires { k ≤ 64 }
    ensures { result ≡ 2 ^ k - 1 }
{
    if k < 64 { (1 << k) - 1 } else { u64::MAX }
}

// What is compared under the mask: the bits above the low k, at their places.
fn prefix(e: u64, k: u8) -> u64
    requires { k ≤ 64 }
    ensures { result ≡ e / 2 ^ k * 2 ^ k }
{
    e & !mask(k)
}
