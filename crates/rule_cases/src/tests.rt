use rules::read;
use std::test::Fail;
use words::Layer;

// Words that are refused: the number, the word's place, the rule and the layer.
struct Refused {
    words: &'static [u32],
    number: u8,
    place: usize,
    rule: usize,
    layer: Layer,
}

// Words that are a rule set, and how many rules they say.
struct Taken {
    words: &'static [u32],
    rules: usize,
}

const REFUSED: [Refused; 64] = [
    // a kind 0, at the first word
    Refused {
        words: &[0x00000000],
        number: 10,
        place: 0,
        rule: 0,
        layer: Layer::Word,
    },
    // a kind 10
    Refused {
        words: &[0xA0000000],
        number: 10,
        place: 0,
        rule: 0,
        layer: Layer::Word,
    },
    // a stray bit in an opening
    Refused {
        words: &[0x10000101, 0x30000000, 0x90000000],
        number: 10,
        place: 0,
        rule: 0,
        layer: Layer::Word,
    },
    // a stray bit in the last word
    Refused {
        words: &[
            0x10000002, 0x30000000, 0x20010001, 0x30000101, 0x40000002, 0x50000000, 0x50000101,
            0x30000002, 0x20020001, 0x80000000, 0x30030005, 0x90000001,
        ],
        number: 10,
        place: 11,
        rule: 0,
        layer: Layer::Word,
    },
    // a stray bit in a link
    Refused {
        words: &[0x10000001, 0x31000000, 0x90000000],
        number: 10,
        place: 1,
        rule: 0,
        layer: Layer::Word,
    },
    // a stray bit in a ban variable
    Refused {
        words: &[
            0x10000001, 0x30000000, 0x40000001, 0x50010000, 0x30000001, 0x90000000,
        ],
        number: 10,
        place: 3,
        rule: 0,
        layer: Layer::Word,
    },
    // a kind 0 in the second rule
    Refused {
        words: &[0x10000001, 0x30000000, 0x90000000, 0x10000001, 0x00000000],
        number: 10,
        place: 4,
        rule: 1,
        layer: Layer::Word,
    },
    // an end at the first word
    Refused {
        words: &[0x90000000],
        number: 11,
        place: 0,
        rule: 0,
        layer: Layer::Rule,
    },
    // a rule that ends early
    Refused {
        words: &[0x10000001],
        number: 11,
        place: 1,
        rule: 0,
        layer: Layer::Rule,
    },
    // a set that ends one word early
    Refused {
        words: &[
            0x10000002, 0x30000000, 0x20010001, 0x30000101, 0x40000002, 0x50000000, 0x50000101,
            0x30000002, 0x20020001, 0x80000000, 0x30030005,
        ],
        number: 11,
        place: 11,
        rule: 0,
        layer: Layer::Rule,
    },
    // no needs
    Refused {
        words: &[0x10000001, 0x90000000],
        number: 11,
        place: 1,
        rule: 0,
        layer: Layer::Rule,
    },
    // a ban after a strike
    Refused {
        words: &[
            0x10000001, 0x30000000, 0x60000000, 0x40000001, 0x50000100, 0x30000001, 0x90000000,
        ],
        number: 11,
        place: 3,
        rule: 0,
        layer: Layer::Rule,
    },
    // too few ban variables
    Refused {
        words: &[
            0x10000001, 0x30000000, 0x40000002, 0x50000100, 0x30000001, 0x90000000,
        ],
        number: 11,
        place: 4,
        rule: 0,
        layer: Layer::Rule,
    },
    // a ban variable too many
    Refused {
        words: &[
            0x10000001, 0x30000000, 0x40000001, 0x50000100, 0x50000100, 0x30000001, 0x90000000,
        ],
        number: 11,
        place: 4,
        rule: 0,
        layer: Layer::Rule,
    },
    // a ban with no links
    Refused {
        words: &[0x10000001, 0x30000000, 0x40000001, 0x50000100, 0x90000000],
        number: 11,
        place: 4,
        rule: 0,
        layer: Layer::Rule,
    },
    // makes with no links
    Refused {
        words: &[0x10000001, 0x30000000, 0x80000000, 0x90000000],
        number: 11,
        place: 3,
        rule: 0,
        layer: Layer::Rule,
    },
    // a struck need after a struck thing
    Refused {
        words: &[0x10000001, 0x30000000, 0x70000000, 0x60000000, 0x90000000],
        number: 11,
        place: 3,
        rule: 0,
        layer: Layer::Rule,
    },
    // a rule in a rule
    Refused {
        words: &[0x10000001, 0x30000000, 0x10000001, 0x90000000],
        number: 11,
        place: 2,
        rule: 0,
        layer: Layer::Rule,
    },
    // the second rule ends early
    Refused {
        words: &[0x10000001, 0x30000000, 0x90000000, 0x10000001],
        number: 11,
        place: 4,
        rule: 1,
        layer: Layer::Rule,
    },
    // no variables
    Refused {
        words: &[0x10000000],
        number: 12,
        place: 0,
        rule: 0,
        layer: Layer::Rule,
    },
    // seven variables
    Refused {
        words: &[0x10000007],
        number: 12,
        place: 0,
        rule: 0,
        layer: Layer::Rule,
    },
    // a label of 16
    Refused {
        words: &[0x10000001, 0x30100000, 0x90000000],
        number: 12,
        place: 1,
        rule: 0,
        layer: Layer::Rule,
    },
    // a source past the variables
    Refused {
        words: &[0x10000001, 0x30000100, 0x90000000],
        number: 12,
        place: 1,
        rule: 0,
        layer: Layer::Rule,
    },
    // a target past the variables
    Refused {
        words: &[0x10000001, 0x20000001, 0x90000000],
        number: 12,
        place: 1,
        rule: 0,
        layer: Layer::Rule,
    },
    // a mark of 64
    Refused {
        words: &[0x10000001, 0x30000040, 0x90000000],
        number: 12,
        place: 1,
        rule: 0,
        layer: Layer::Rule,
    },
    // a ban with no variables
    Refused {
        words: &[0x10000001, 0x30000000, 0x40000000],
        number: 12,
        place: 2,
        rule: 0,
        layer: Layer::Rule,
    },
    // a ban with seven variables
    Refused {
        words: &[0x10000001, 0x30000000, 0x40000007],
        number: 12,
        place: 2,
        rule: 0,
        layer: Layer::Rule,
    },
    // a ban variable that is neither new nor shared
    Refused {
        words: &[0x10000001, 0x30000000, 0x40000001, 0x50000200],
        number: 12,
        place: 3,
        rule: 0,
        layer: Layer::Rule,
    },
    // a rule variable past the last
    Refused {
        words: &[0x10000001, 0x30000000, 0x40000001, 0x50000101],
        number: 12,
        place: 3,
        rule: 0,
        layer: Layer::Rule,
    },
    // a new ban variable with a number
    Refused {
        words: &[0x10000002, 0x30000000, 0x30000100, 0x40000001, 0x50000001],
        number: 12,
        place: 4,
        rule: 0,
        layer: Layer::Rule,
    },
    // a struck place past the needs
    Refused {
        words: &[0x10000001, 0x30000000, 0x60000001, 0x90000000],
        number: 12,
        place: 2,
        rule: 0,
        layer: Layer::Rule,
    },
    // a struck thing past the variables
    Refused {
        words: &[0x10000001, 0x30000000, 0x70000001, 0x90000000],
        number: 12,
        place: 2,
        rule: 0,
        layer: Layer::Rule,
    },
    // five new things
    Refused {
        words: &[0x10000001, 0x30000000, 0x80000005],
        number: 12,
        place: 2,
        rule: 0,
        layer: Layer::Rule,
    },
    // a new thing past the last
    Refused {
        words: &[0x10000001, 0x30000000, 0x80000001, 0x20000002, 0x90000000],
        number: 12,
        place: 3,
        rule: 0,
        layer: Layer::Rule,
    },
    // a need twice
    Refused {
        words: &[0x10000001, 0x30000000, 0x30000000, 0x90000000],
        number: 13,
        place: 2,
        rule: 0,
        layer: Layer::Rule,
    },
    // a ban link twice
    Refused {
        words: &[
            0x10000001, 0x30000000, 0x40000001, 0x50000100, 0x30000001, 0x30000001, 0x90000000,
        ],
        number: 13,
        place: 5,
        rule: 0,
        layer: Layer::Rule,
    },
    // a need struck twice
    Refused {
        words: &[0x10000001, 0x30000000, 0x60000000, 0x60000000, 0x90000000],
        number: 13,
        place: 3,
        rule: 0,
        layer: Layer::Rule,
    },
    // a thing struck twice
    Refused {
        words: &[0x10000001, 0x30000000, 0x70000000, 0x70000000, 0x90000000],
        number: 13,
        place: 3,
        rule: 0,
        layer: Layer::Rule,
    },
    // a link made twice
    Refused {
        words: &[
            0x10000001, 0x30000000, 0x80000000, 0x30010000, 0x30010000, 0x90000000,
        ],
        number: 13,
        place: 4,
        rule: 0,
        layer: Layer::Rule,
    },
    // a variable with no link
    Refused {
        words: &[0x10000002, 0x30000000, 0x90000000],
        number: 14,
        place: 0,
        rule: 0,
        layer: Layer::Rule,
    },
    // an anchor only at a higher variable
    Refused {
        words: &[0x10000002, 0x20000001, 0x30000100, 0x90000000],
        number: 14,
        place: 0,
        rule: 0,
        layer: Layer::Rule,
    },
    // an unanchored variable of the second rule
    Refused {
        words: &[
            0x10000001, 0x30000000, 0x90000000, 0x10000002, 0x30000000, 0x90000000,
        ],
        number: 14,
        place: 3,
        rule: 1,
        layer: Layer::Rule,
    },
    // an unanchored ban variable
    Refused {
        words: &[
            0x10000001, 0x30000000, 0x40000002, 0x50000100, 0x50000000, 0x30000001, 0x90000000,
        ],
        number: 14,
        place: 2,
        rule: 0,
        layer: Layer::Rule,
    },
    // a ban that shares nothing
    Refused {
        words: &[
            0x10000001, 0x30000000, 0x40000001, 0x50000000, 0x30000001, 0x90000000,
        ],
        number: 15,
        place: 2,
        rule: 0,
        layer: Layer::Rule,
    },
    // a variable shared twice
    Refused {
        words: &[
            0x10000001, 0x30000000, 0x40000002, 0x50000100, 0x50000100, 0x30000001, 0x30000101,
            0x90000000,
        ],
        number: 15,
        place: 4,
        rule: 0,
        layer: Layer::Rule,
    },
    // a link that joins shared variables
    Refused {
        words: &[
            0x10000002, 0x30000000, 0x30000100, 0x40000002, 0x50000100, 0x50000101, 0x30000001,
            0x30000101, 0x20000001, 0x90000000,
        ],
        number: 15,
        place: 8,
        rule: 0,
        layer: Layer::Rule,
    },
    // a link from a shared variable to itself
    Refused {
        words: &[
            0x10000001, 0x30000000, 0x40000001, 0x50000100, 0x30000001, 0x20000000, 0x90000000,
        ],
        number: 15,
        place: 5,
        rule: 0,
        layer: Layer::Rule,
    },
    // a thirteenth need
    Refused {
        words: &[
            0x10000001, 0x30000000, 0x30000001, 0x30000002, 0x30000003, 0x30000004, 0x30000005,
            0x30000006, 0x30000007, 0x30000008, 0x30000009, 0x3000000A, 0x3000000B, 0x3000000C,
            0x90000000,
        ],
        number: 16,
        place: 13,
        rule: 0,
        layer: Layer::Rule,
    },
    // a fifth ban
    Refused {
        words: &[
            0x10000001, 0x30000000, 0x40000001, 0x50000100, 0x30000001, 0x40000001, 0x50000100,
            0x30000001, 0x40000001, 0x50000100, 0x30000001, 0x40000001, 0x50000100, 0x30000001,
            0x40000001, 0x50000100, 0x30000001, 0x90000000,
        ],
        number: 16,
        place: 14,
        rule: 0,
        layer: Layer::Rule,
    },
    // a ninth ban link
    Refused {
        words: &[
            0x10000001, 0x30000000, 0x40000001, 0x50000100, 0x30010000, 0x30010001, 0x30010002,
            0x30010003, 0x30010004, 0x30010005, 0x30010006, 0x30010007, 0x30010008, 0x90000000,
        ],
        number: 16,
        place: 12,
        rule: 0,
        layer: Layer::Rule,
    },
    // a thirteenth made link
    Refused {
        words: &[
            0x10000001, 0x30000000, 0x80000000, 0x30010000, 0x30010001, 0x30010002, 0x30010003,
            0x30010004, 0x30010005, 0x30010006, 0x30010007, 0x30010008, 0x30010009, 0x3001000A,
            0x3001000B, 0x3001000C, 0x90000000,
        ],
        number: 16,
        place: 15,
        rule: 0,
        layer: Layer::Rule,
    },
    // a seventeenth rule
    Refused {
        words: &[
            0x10000001, 0x30000000, 0x90000000, 0x10000001, 0x30000000, 0x90000000, 0x10000001,
            0x30000000, 0x90000000, 0x10000001, 0x30000000, 0x90000000, 0x10000001, 0x30000000,
            0x90000000, 0x10000001, 0x30000000, 0x90000000, 0x10000001, 0x30000000, 0x90000000,
            0x10000001, 0x30000000, 0x90000000, 0x10000001, 0x30000000, 0x90000000, 0x10000001,
            0x30000000, 0x90000000, 0x10000001, 0x30000000, 0x90000000, 0x10000001, 0x30000000,
            0x90000000, 0x10000001, 0x30000000, 0x90000000, 0x10000001, 0x30000000, 0x90000000,
            0x10000001, 0x30000000, 0x90000000, 0x10000001, 0x30000000, 0x90000000, 0x10000001,
            0x30000000, 0x90000000,
        ],
        number: 16,
        place: 48,
        rule: 16,
        layer: Layer::Set,
    },
    // a made link from a struck thing
    Refused {
        words: &[
            0x10000001, 0x30000000, 0x70000000, 0x80000000, 0x30010000, 0x90000000,
        ],
        number: 17,
        place: 4,
        rule: 0,
        layer: Layer::Rule,
    },
    // a made link to a struck thing
    Refused {
        words: &[
            0x10000002, 0x30000000, 0x30000100, 0x70000001, 0x80000000, 0x30010000, 0x20010001,
            0x90000000,
        ],
        number: 17,
        place: 6,
        rule: 0,
        layer: Layer::Rule,
    },
    // 10 before 11
    Refused {
        words: &[0x10000001, 0x91000000],
        number: 10,
        place: 1,
        rule: 0,
        layer: Layer::Word,
    },
    // 11 before 12
    Refused {
        words: &[0x10000001, 0x30000000, 0x30000001, 0x60000000, 0x30000040],
        number: 11,
        place: 4,
        rule: 0,
        layer: Layer::Rule,
    },
    // 12 before 16
    Refused {
        words: &[
            0x10000001, 0x30000000, 0x30000001, 0x30000002, 0x30000003, 0x30000004, 0x30000005,
            0x30000006, 0x30000007, 0x30000008, 0x30000009, 0x3000000A, 0x3000000B, 0x30000040,
        ],
        number: 12,
        place: 13,
        rule: 0,
        layer: Layer::Rule,
    },
    // 13 before 16
    Refused {
        words: &[
            0x10000001, 0x30000000, 0x30000001, 0x30000002, 0x30000003, 0x30000004, 0x30000005,
            0x30000006, 0x30000007, 0x30000008, 0x30000009, 0x3000000A, 0x3000000B, 0x30000000,
        ],
        number: 13,
        place: 13,
        rule: 0,
        layer: Layer::Rule,
    },
    // 12 before 16 at a seventeenth rule
    Refused {
        words: &[
            0x10000001, 0x30000000, 0x90000000, 0x10000001, 0x30000000, 0x90000000, 0x10000001,
            0x30000000, 0x90000000, 0x10000001, 0x30000000, 0x90000000, 0x10000001, 0x30000000,
            0x90000000, 0x10000001, 0x30000000, 0x90000000, 0x10000001, 0x30000000, 0x90000000,
            0x10000001, 0x30000000, 0x90000000, 0x10000001, 0x30000000, 0x90000000, 0x10000001,
            0x30000000, 0x90000000, 0x10000001, 0x30000000, 0x90000000, 0x10000001, 0x30000000,
            0x90000000, 0x10000001, 0x30000000, 0x90000000, 0x10000001, 0x30000000, 0x90000000,
            0x10000001, 0x30000000, 0x90000000, 0x10000001, 0x30000000, 0x90000000, 0x10000007,
        ],
        number: 12,
        place: 48,
        rule: 16,
        layer: Layer::Rule,
    },
    // 14 before 15 on one word
    Refused {
        words: &[
            0x10000001, 0x30000000, 0x40000002, 0x50000000, 0x50000000, 0x30000001, 0x90000000,
        ],
        number: 14,
        place: 2,
        rule: 0,
        layer: Layer::Rule,
    },
    // a later 12 before an earlier 14
    Refused {
        words: &[0x10000002, 0x30000000, 0x30000200, 0x90000000],
        number: 12,
        place: 2,
        rule: 0,
        layer: Layer::Rule,
    },
    // a later 11 before an earlier 15
    Refused {
        words: &[0x10000001, 0x30000000, 0x40000001, 0x50000000, 0x30000001],
        number: 11,
        place: 5,
        rule: 0,
        layer: Layer::Rule,
    },
    // an earlier 15 before a later 14
    Refused {
        words: &[
            0x10000001, 0x30000000, 0x40000001, 0x50000000, 0x30000001, 0x90000000, 0x10000002,
            0x30000000, 0x90000000,
        ],
        number: 15,
        place: 2,
        rule: 0,
        layer: Layer::Rule,
    },
    // 15 before a later 17
    Refused {
        words: &[
            0x10000001, 0x30000000, 0x40000001, 0x50000000, 0x30000001, 0x70000000, 0x80000000,
            0x30010000, 0x90000000,
        ],
        number: 15,
        place: 2,
        rule: 0,
        layer: Layer::Rule,
    },
];

const TAKEN: [Taken; 14] = [
    // no words
    Taken {
        words: &[],
        rules: 0,
    },
    // one ban, and a made link
    Taken {
        words: &[
            0x10000002, 0x30000000, 0x20010001, 0x30000101, 0x40000002, 0x50000000, 0x50000101,
            0x30000002, 0x20020001, 0x80000000, 0x30030005, 0x90000000,
        ],
        rules: 1,
    },
    // six variables
    Taken {
        words: &[
            0x10000006, 0x30000000, 0x30000100, 0x30000200, 0x30000300, 0x30000400, 0x30000500,
            0x90000000,
        ],
        rules: 1,
    },
    // twelve needs
    Taken {
        words: &[
            0x10000001, 0x30000000, 0x30000001, 0x30000002, 0x30000003, 0x30000004, 0x30000005,
            0x30000006, 0x30000007, 0x30000008, 0x30000009, 0x3000000A, 0x3000000B, 0x90000000,
        ],
        rules: 1,
    },
    // four bans
    Taken {
        words: &[
            0x10000001, 0x30000000, 0x40000001, 0x50000100, 0x30000001, 0x40000001, 0x50000100,
            0x30000001, 0x40000001, 0x50000100, 0x30000001, 0x40000001, 0x50000100, 0x30000001,
            0x90000000,
        ],
        rules: 1,
    },
    // eight ban links
    Taken {
        words: &[
            0x10000001, 0x30000000, 0x40000001, 0x50000100, 0x30010000, 0x30010001, 0x30010002,
            0x30010003, 0x30010004, 0x30010005, 0x30010006, 0x30010007, 0x90000000,
        ],
        rules: 1,
    },
    // a ban with six variables
    Taken {
        words: &[
            0x10000001, 0x30000000, 0x40000006, 0x50000100, 0x50000000, 0x50000000, 0x50000000,
            0x50000000, 0x50000000, 0x30000001, 0x30000101, 0x30000201, 0x30000301, 0x30000401,
            0x30000501, 0x90000000,
        ],
        rules: 1,
    },
    // twelve made links
    Taken {
        words: &[
            0x10000001, 0x30000000, 0x80000000, 0x30010000, 0x30010001, 0x30010002, 0x30010003,
            0x30010004, 0x30010005, 0x30010006, 0x30010007, 0x30010008, 0x30010009, 0x3001000A,
            0x3001000B, 0x90000000,
        ],
        rules: 1,
    },
    // four new things
    Taken {
        words: &[0x10000001, 0x30000000, 0x80000004, 0x20010004, 0x90000000],
        rules: 1,
    },
    // a label of 15 and a mark of 63
    Taken {
        words: &[0x10000001, 0x300F003F, 0x90000000],
        rules: 1,
    },
    // sixteen rules
    Taken {
        words: &[
            0x10000001, 0x30000000, 0x90000000, 0x10000001, 0x30000000, 0x90000000, 0x10000001,
            0x30000000, 0x90000000, 0x10000001, 0x30000000, 0x90000000, 0x10000001, 0x30000000,
            0x90000000, 0x10000001, 0x30000000, 0x90000000, 0x10000001, 0x30000000, 0x90000000,
            0x10000001, 0x30000000, 0x90000000, 0x10000001, 0x30000000, 0x90000000, 0x10000001,
            0x30000000, 0x90000000, 0x10000001, 0x30000000, 0x90000000, 0x10000001, 0x30000000,
            0x90000000, 0x10000001, 0x30000000, 0x90000000, 0x10000001, 0x30000000, 0x90000000,
            0x10000001, 0x30000000, 0x90000000, 0x10000001, 0x30000000, 0x90000000,
        ],
        rules: 16,
    },
    // the last need and the last thing struck
    Taken {
        words: &[
            0x10000002, 0x30000000, 0x20000001, 0x60000001, 0x60000000, 0x70000001, 0x70000000,
            0x90000000,
        ],
        rules: 1,
    },
    // an anchor at a lower variable, in either direction
    Taken {
        words: &[0x10000003, 0x30000000, 0x20000001, 0x20000201, 0x90000000],
        rules: 1,
    },
    // new variables beside variable 0 shared
    Taken {
        words: &[
            0x10000001, 0x30000000, 0x40000003, 0x50000000, 0x50000100, 0x50000000, 0x30000001,
            0x30000101, 0x20010201, 0x90000000,
        ],
        rules: 1,
    },
];

#[test]
fn faults(rt: HostRuntime) -> Result<(), Fail> {
    for case in &REFUSED {
        let Err(fault) = read(case.words) else {
            return Err(Fail::new("taken"));
        };
        assert_eq!(rt; fault.number(), case.number);
        assert_eq!(rt; fault.place, case.place);
        assert_eq!(rt; fault.rule, case.rule);
        assert_eq!(rt; fault.layer(), case.layer);
    }
    Ok(())
}

#[test]
fn sets(rt: HostRuntime) -> Result<(), Fail> {
    for case in &TAKEN {
        let Ok(set) = read(case.words) else {
            return Err(Fail::new("refused"));
        };
        assert_eq!(rt; set.rules, case.rules);
    }
    Ok(())
}

#[test]
fn too_many_words(rt: HostRuntime) -> Result<(), Fail> {
    let words = [0u32; 1025];
    let Err(fault) = read(&words) else {
        return Err(Fail::new("taken"));
    };
    assert_eq!(rt; fault.number(), 16);
    assert_eq!(rt; fault.place, 1024);
    assert_eq!(rt; fault.rule, 0);
    assert_eq!(rt; fault.layer(), Layer::Set);
    Ok(())
}
