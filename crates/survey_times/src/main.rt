// How long a survey takes: a block of 120 meters, two rules, in each of the stores.
#![tactic(auto)]

mod block;

use bit_store::BitStore;
use block::record_block;
use links::{Link, Links, Sizes};
use list_store::ListStore;
use matching::survey;
use rules::{RuleSet, read};
use std::io;
use std::time::Instant;

// A flat that is metered and has no contract; a meter and its flat on different risers.
const RULES: [u32; 18] = [
    0x1000_0002,
    0x3000_0000,
    0x2001_0001,
    0x3000_0101,
    0x4000_0002,
    0x5000_0000,
    0x5000_0101,
    0x3000_0002,
    0x2003_0001,
    0x9000_0000,
    0x1000_0004,
    0x3000_0003,
    0x2002_0100,
    0x3000_0100,
    0x2001_0102,
    0x2002_0203,
    0x3000_0303,
    0x9000_0000,
];

const TIMES: u32 = 100;

// Surveys one rule many times, into the same buffer.
fn survey_often<L: Links>(graph: &L, set: RuleSet, rule: usize, out: &mut [u32]) -> usize {
    let mut words = 0;
    for _ in 0..TIMES {
        words = survey(graph, set, rule, out).unwrap_or(0);
    }
    words
}

fn time_survey<L: Links>(
    rt: &HostRuntime,
    name: &str,
    graph: &L,
    set: RuleSet,
    rule: usize,
) -> io::Result<()> {
    let mut out = vec![in rt.alloc(); 0u32; 4096]?;
    let start = Instant::now(rt)?;
    let words = survey_often(graph, set, rule, out.as_mut_slice());
    let micros = start.elapsed(rt)?.as_micros() / TIMES as u128;
    eprintln!(rt; "{name} store, rule {rule}: {words} words, {micros} microseconds a survey")
}

fn time_store<L: Links>(rt: &HostRuntime, name: &str, graph: &L) -> io::Result<()> {
    if let Ok(set) = read(&RULES) {
        time_survey(rt, name, graph, set, 0)?;
        time_survey(rt, name, graph, set, 1)?;
    }
    Ok(())
}

fn run(rt: &HostRuntime) -> io::Result<()> {
    let Ok(sizes) = Sizes::ask(328, 4096) else {
        return Ok(());
    };
    let mut records = vec![in rt.alloc(); Link::default(); sizes.limit()]?;
    let mut list = ListStore::new(sizes, records.as_mut_slice());
    let _ = record_block(&mut list);
    time_store(rt, "list", &list)?;
    let mut bits = vec![in rt.alloc(); 0u32; BitStore::words_needed(sizes)]?;
    let mut store = BitStore::new(sizes, bits.as_mut_slice());
    let _ = record_block(&mut store);
    time_store(rt, "bit", &store)
}

fn main(rt: HostRuntime) -> io::Result<()> {
    run(&rt)
}
