// Runs the range library on the documents' cases and prints what each function answers, a line a case.
#![tactic(auto)]

mod report;

use range::Block;
use report::{block_of, compare, holds, is_block, number_of, single};
use std::io;

fn main(rt: HostRuntime) -> io::Result<()> {
    table_of_004(&rt)?;
    text_of_004(&rt)?;
    whole_space(&rt)?;
    both_ways_of_bit_k(&rt)?;
    sizes(&rt)?;
    starts(&rt)?;
    edges(&rt)?;
    single_events(&rt)?;
    compared_blocks(&rt)
}

// 004 section 2.4's table, read by 001: 2 and 5 are misprinted there.
fn table_of_004(rt: &impl Print) -> io::Result<()> {
    for r in [
        0x1, 0x2, 0x3, 0x4, 0x5, 0xABCDEF, 0xABCDF0, 0xABCDE0, 0xFFFF, 0xABCD0000, 0xFFFF0000,
    ] {
        block_of(rt, r)?;
    }
    Ok(())
}

// The numbers in 004's text: a D at the end is misprinted there.
fn text_of_004(rt: &impl Print) -> io::Result<()> {
    for r in [
        0x1234FF, 0x123500, 0x987650, 0x98764F, 0x1234567E, 0x1234567D,
    ] {
        block_of(rt, r)?;
    }
    Ok(())
}

fn whole_space(rt: &impl Print) -> io::Result<()> {
    for r in [
        0x0,
        0xFFFFFFFFFFFFFFFF,
        0x7FFFFFFFFFFFFFFF,
        0x8000000000000000,
        0x010000000000FFFF,
    ] {
        block_of(rt, r)?;
    }
    Ok(())
}

// Ones below a start whose bit k is 0, zeros below one whose bit k is 1.
fn both_ways_of_bit_k(rt: &impl Print) -> io::Result<()> {
    for (start, k) in [
        (0x4, 1),
        (0x6, 1),
        (0xABCDE0, 4),
        (0xABCDF0, 4),
        (0x1234567800000000, 17),
        (0x12345678FFFE0000, 17),
        (0x8000000000000000, 62),
        (0xC000000000000000, 62),
    ] {
        number_of(rt, Block { start, k })?;
    }
    Ok(())
}

// k = 0, 1, 63, 64, 65 and 255.
fn sizes(rt: &impl Print) -> io::Result<()> {
    for k in [0, 1, 63, 64, 65, 255] {
        is_block(rt, Block { start: 0, k })?;
    }
    for (start, k) in [
        (0x0, 0),
        (0x0, 1),
        (0x0, 63),
        (0x8000000000000000, 63),
        (0x0, 64),
        (0x0, 65),
        (0x0, 255),
    ] {
        number_of(rt, Block { start, k })?;
    }
    for (k, e) in [(64, 0xFFFFFFFFFFFFFFFF), (65, 0x0), (255, 0x0)] {
        holds(rt, Block { start: 0, k }, e)?;
    }
    Ok(())
}

// Starts that are no multiple of 2^k.
fn starts(rt: &impl Print) -> io::Result<()> {
    for (start, k) in [
        (0x2, 2),
        (0x1, 1),
        (0x4000000000000000, 63),
        (0x8000000000000000, 64),
    ] {
        is_block(rt, Block { start, k })?;
    }
    for (start, k) in [(0x2, 2), (0x8000000000000000, 64)] {
        number_of(rt, Block { start, k })?;
    }
    for (start, k) in [(0x2, 2), (0x8000000000000000, 64)] {
        holds(rt, Block { start, k }, start)?;
    }
    Ok(())
}

// first - 1, first, last and last + 1.
fn edges(rt: &impl Print) -> io::Result<()> {
    for (start, k, e) in [
        (0x4, 2, 0x3),
        (0x4, 2, 0x4),
        (0x4, 2, 0x7),
        (0x4, 2, 0x8),
        (0xFEDC8000, 14, 0xFEDC7FFF),
        (0xFEDC8000, 14, 0xFEDC8000),
        (0xFEDC8000, 14, 0xFEDCBFFF),
        (0xFEDC8000, 14, 0xFEDCC000),
        (0x8000000000000000, 63, 0x7FFFFFFFFFFFFFFF),
        (0x8000000000000000, 63, 0x8000000000000000),
        (0x8000000000000000, 63, 0xFFFFFFFFFFFFFFFF),
        (0x8000000000000000, 63, 0x0),
    ] {
        holds(rt, Block { start, k }, e)?;
    }
    Ok(())
}

fn single_events(rt: &impl Print) -> io::Result<()> {
    for e in [0x0, 0xFFFFFFFFFFFFFFFF] {
        single(rt, e)?;
    }
    for e in [0x4, 0x5, 0x6] {
        holds(rt, Block { start: 5, k: 0 }, e)?;
    }
    Ok(())
}

// Each answer, both sides of every edge, k = 0, 63 and 64, and what is no block, first and second.
fn compared_blocks(rt: &impl Print) -> io::Result<()> {
    for ((start, k), (other_start, other_k)) in [
        ((0x4, 2), (0x4, 2)),
        ((0x4, 2), (0x4, 1)),
        ((0x4, 1), (0x4, 2)),
        ((0x6, 1), (0x4, 2)),
        ((0x4, 2), (0x6, 1)),
        ((0x4, 2), (0x8, 2)),
        ((0x3, 0), (0x4, 2)),
        ((0x4, 0), (0x4, 2)),
        ((0x7, 0), (0x4, 2)),
        ((0x8, 0), (0x4, 2)),
        ((0x10, 4), (0x0, 8)),
        ((0x100, 4), (0x0, 8)),
        ((0x5, 0), (0x5, 0)),
        ((0x5, 0), (0x4, 0)),
        ((0x0, 64), (0x0, 64)),
        ((0x0, 64), (0x8000000000000000, 63)),
        ((0xFFFFFFFFFFFFFFFF, 0), (0x0, 64)),
        ((0x0, 63), (0x8000000000000000, 63)),
        ((0x0, 63), (0x0, 64)),
        ((0x7FFFFFFFFFFFFFFF, 0), (0x0, 63)),
        ((0x8000000000000000, 0), (0x0, 63)),
        ((0x2, 2), (0x4, 2)),
        ((0x4, 2), (0x2, 2)),
        ((0x2, 2), (0x2, 2)),
        ((0x0, 65), (0x0, 65)),
        ((0x0, 64), (0x0, 65)),
        ((0x0, 255), (0x0, 0)),
        ((0x1, 64), (0x0, 64)),
    ] {
        let other = Block {
            start: other_start,
            k: other_k,
        };
        compare(rt, Block { start, k }, other)?;
    }
    Ok(())
}
