// Sets of 1,024 words: each number at its last possible place.
use rules::read;
use std::alloc::{AllocError, Global};
use std::test::Fail;
use words::Layer;

// A rule of 64 words: twelve needs, two bans, seven struck needs and twelve made links.
const RULE: [u32; 64] = [
    0x10000006, 0x30000000, 0x30000100, 0x30000200, 0x30000300, 0x30000400, 0x30000500, 0x30010001,
    0x30010101, 0x30010201, 0x30010301, 0x30010401, 0x30010501, 0x40000006, 0x50000100, 0x50000000,
    0x50000000, 0x50000000, 0x50000000, 0x50000000, 0x30020000, 0x30020100, 0x30020200, 0x30020300,
    0x30020400, 0x30020500, 0x30030100, 0x30030200, 0x40000006, 0x50000100, 0x50000000, 0x50000000,
    0x50000000, 0x50000000, 0x50000000, 0x30020000, 0x30020100, 0x30020200, 0x30020300, 0x30020400,
    0x30020500, 0x30030100, 0x30030200, 0x60000000, 0x60000001, 0x60000002, 0x60000003, 0x60000004,
    0x60000005, 0x60000006, 0x80000000, 0x30040005, 0x30040105, 0x30040205, 0x30040305, 0x30040405,
    0x30040505, 0x30050005, 0x30050105, 0x30050205, 0x30050305, 0x30050405, 0x30050505, 0x90000000,
];

// The beginning of a rule, up to the end of its third ban.
const BANS: [u32; 58] = [
    0x10000006, 0x30000000, 0x30000100, 0x30000200, 0x30000300, 0x30000400, 0x30000500, 0x30010001,
    0x30010101, 0x30010201, 0x30010301, 0x30010401, 0x30010501, 0x40000006, 0x50000100, 0x50000000,
    0x50000000, 0x50000000, 0x50000000, 0x50000000, 0x30020000, 0x30020100, 0x30020200, 0x30020300,
    0x30020400, 0x30020500, 0x30030100, 0x30030200, 0x40000006, 0x50000100, 0x50000000, 0x50000000,
    0x50000000, 0x50000000, 0x50000000, 0x30020000, 0x30020100, 0x30020200, 0x30020300, 0x30020400,
    0x30020500, 0x30030100, 0x30030200, 0x40000006, 0x50000100, 0x50000000, 0x50000000, 0x50000000,
    0x50000000, 0x50000000, 0x30020000, 0x30020100, 0x30020200, 0x30020300, 0x30020400, 0x30020500,
    0x30030100, 0x30030200,
];

// A set of 1,024 words: fourteen rules, one with `more` struck needs more, and a last one that begins with `kept` words
// of another rule and ends with these.
struct Last {
    more: usize,
    rule: &'static [u32],
    kept: usize,
    words: &'static [u32],
    number: u8,
    place: usize,
    layer: Layer,
}

const LAST: [Last; 11] = [
    // a kind 0
    Last {
        more: 0,
        rule: &RULE,
        kept: 63,
        words: &[0x00000000],
        number: 10,
        place: 1023,
        layer: Layer::Word,
    },
    // a ban variable after the makes
    Last {
        more: 0,
        rule: &RULE,
        kept: 63,
        words: &[0x50000000],
        number: 11,
        place: 1023,
        layer: Layer::Rule,
    },
    // no end
    Last {
        more: 0,
        rule: &RULE,
        kept: 50,
        words: &[
            0x60000007, 0x80000000, 0x30040005, 0x30040105, 0x30040205, 0x30040305, 0x30040405,
            0x30040505, 0x30050005, 0x30050105, 0x30050205, 0x30050305, 0x30050405, 0x30050505,
        ],
        number: 11,
        place: 1024,
        layer: Layer::Rule,
    },
    // a label of 16
    Last {
        more: 0,
        rule: &RULE,
        kept: 63,
        words: &[0x30100005],
        number: 12,
        place: 1023,
        layer: Layer::Rule,
    },
    // a link made twice
    Last {
        more: 0,
        rule: &RULE,
        kept: 63,
        words: &[0x30050505],
        number: 13,
        place: 1023,
        layer: Layer::Rule,
    },
    // an unanchored ban variable
    Last {
        more: 2,
        rule: &BANS,
        kept: 58,
        words: &[0x40000001, 0x50000100, 0x20000000, 0x90000000],
        number: 14,
        place: 1020,
        layer: Layer::Rule,
    },
    // a ban that shares nothing
    Last {
        more: 2,
        rule: &BANS,
        kept: 58,
        words: &[0x40000001, 0x50000000, 0x30000000, 0x90000000],
        number: 15,
        place: 1020,
        layer: Layer::Rule,
    },
    // a link that joins shared variables
    Last {
        more: 1,
        rule: &BANS,
        kept: 58,
        words: &[0x40000001, 0x50000100, 0x30000000, 0x20000000, 0x90000000],
        number: 15,
        place: 1022,
        layer: Layer::Rule,
    },
    // a thirteenth made link
    Last {
        more: 0,
        rule: &RULE,
        kept: 63,
        words: &[0x30060005],
        number: 16,
        place: 1023,
        layer: Layer::Rule,
    },
    // a seventeenth rule
    Last {
        more: 0,
        rule: &RULE,
        kept: 49,
        words: &[
            0x80000000, 0x30040005, 0x30040105, 0x30040205, 0x30040305, 0x30040405, 0x30040505,
            0x30050005, 0x30050105, 0x30050205, 0x30050305, 0x30050405, 0x30050505, 0x90000000,
            0x10000001,
        ],
        number: 16,
        place: 1023,
        layer: Layer::Set,
    },
    // a made link at a struck thing
    Last {
        more: 0,
        rule: &RULE,
        kept: 49,
        words: &[
            0x70000000, 0x80000000, 0x30040105, 0x30040205, 0x30040305, 0x30040405, 0x30040505,
            0x30050105, 0x30050205, 0x30050305, 0x30050405, 0x30050505, 0x30060105, 0x30040005,
            0x90000000,
        ],
        number: 17,
        place: 1022,
        layer: Layer::Rule,
    },
];

// Fourteen rules, and one with so many struck needs more.
fn long(heap: Global, more: usize) -> Result<Vec<u32>, AllocError> {
    let mut words = Vec::new(heap);
    for _ in 0..14 {
        words.extend_from_slice(&RULE)?;
    }
    words.extend_from_slice(&RULE[..50])?;
    for need in 7..7 + more.min(5) {
        words.push(0x60000000 + need as u32)?;
    }
    words.extend_from_slice(&RULE[50..])?;
    Ok(words)
}

#[test]
fn last_places(rt: HostRuntime) -> Result<(), Fail> {
    for case in &LAST {
        let mut words = long(rt.alloc(), case.more)?;
        words.extend_from_slice(&case.rule[..case.kept.min(case.rule.len())])?;
        words.extend_from_slice(case.words)?;
        assert_eq!(rt; words.len(), 1024);
        let Err(fault) = read(words.as_slice()) else {
            return Err(Fail::new("taken"));
        };
        assert_eq!(rt; fault.number(), case.number);
        assert_eq!(rt; fault.place, case.place);
        assert_eq!(rt; fault.rule, ends_before(words.as_slice(), case.place));
        assert_eq!(rt; fault.layer(), case.layer);
    }
    Ok(())
}

// How many of the words before the place end a rule.
fn ends_before(words: &[u32], place: usize) -> usize {
    words
        .iter()
        .take(place)
        .filter(|word| **word == 0x90000000)
        .count()
}

#[test]
fn a_full_set(rt: HostRuntime) -> Result<(), Fail> {
    let mut words = long(rt.alloc(), 0)?;
    words.extend_from_slice(&RULE)?;
    assert_eq!(rt; words.len(), 1024);
    let Ok(set) = read(words.as_slice()) else {
        return Err(Fail::new("refused"));
    };
    assert_eq!(rt; set.rules, 16);
    Ok(())
}
