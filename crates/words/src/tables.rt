// What a reading goes by: which words may follow at each stage, and the number and the layer of each fault.
use crate::faults::Layer;

// By stage, in the order of `Stage`: whether a word may follow that opens a rule, links, opens a ban, shares, strikes a need,
// strikes a thing, makes, or ends the rule.
// Stays: a rule of the project, which words may follow is one table to read beside the format's.
pub const MAY: [[bool; 8]; 10] = [
    [true, false, false, false, false, false, false, false],
    [false, true, false, false, false, false, false, false],
    [false, true, true, false, true, true, true, true],
    [false, false, false, true, false, false, false, false],
    [false, true, false, false, false, false, false, false],
    [false, true, true, false, true, true, true, true],
    [false, false, false, false, true, true, true, true],
    [false, false, false, false, false, true, true, true],
    [false, true, false, false, false, false, false, false],
    [false, true, false, false, false, false, false, true],
];

// By fault, in the order of `RuleFault` and then of `Cause`: its number, and the layer that finds it.
// Stays: a rule of the project, the faults are one table with each fault's layer.
pub const FAULTS: [(u8, Layer); 12] = [
    (10, Layer::Word),
    (11, Layer::Rule),
    (12, Layer::Rule),
    (13, Layer::Rule),
    (14, Layer::Rule),
    (15, Layer::Rule),
    (15, Layer::Rule),
    (15, Layer::Rule),
    (16, Layer::Rule),
    (17, Layer::Rule),
    (16, Layer::Set),
    (16, Layer::Set),
];
