ghost use Rattle.std.specs.Prelude.{◌≡◌, ℕ, Bool, ◌<◌, ◌≤◌, ◌==◌, length, position, IfSome};
ghost use Rattle.std.specs.Option.{option_map};
ghost use Rattle.std.specs.Iterator.{at_most};
ghost use Rattle.std.specs.List.{prefix_len};
ghost use Rattle.commands.specs.Words.{after_word, blank, decimal, first_word, hex_digit, hex_word, is_passed, next_word, run, with_digit, with_hex_digit, within};
ghost use Rattle.commands.specs.Parts.{before_dash, link_from};

use links::Link;

fn is_blank(byte: u8) -> bool
    ensures { result ≡ blank byte }
{
    matches!(byte, b' ' | b'\t' | b'\r')
}

// Which bytes a run is made of.
#[derive(Clone, Copy, PartialEq, Eq, Debug)]
pub enum Class {
    Blank,
    NonBlank,
    NonDash,
}

impl Class {
    fn has(self, byte: u8) -> bool
        ensures { result ≡ within self byte }
    {
        match self {
            Class::Blank => is_blank(byte),
            Class::NonBlank => !is_blank(byte),
            Class::NonDash => byte != b'-',
        }
    }
}

// How many bytes in front are of the class.
pub fn run_len(text: &[u8], class: Class) -> usize
    ensures is { result ≡ run class text.now }
    ensures inside { result ≤ length text.now }
{
    run_len_by(text, |byte| class.has(byte))
}

// How many bytes in front pass the test.
pub fn run_len_by<F: Fn(u8) -> bool>(text: &[u8], passes: F) -> usize
    requires { F.IsAlwaysCallable passes }
    ensures is { (test : ℕ → Bool) → ((byte : ℕ) (answer : Bool) → F.post passes byte answer → answer ≡ test byte) → result ≡ prefix_len test text.now }
    ensures inside { result ≤ length text.now }
{
    text.iter()
        .position(|byte| !passes(*byte))
        .unwrap_or(text.len())
}

// The number that a digit behind one already read makes.
fn with_digit(value: u32, byte: u8) -> Option<u32>
    ensures { result ≡ with_digit value byte }
{
    value
        .checked_mul(10)?
        .checked_add((byte as char).to_digit(10)?)
}

// The number that the bytes write: one or more decimal digits, with a value below 2^32.
// Stays: a line may be no UTF-8, and `str::parse` takes a leading `+`, which is no number here.
pub fn parse_number(word: &[u8]) -> Option<u32>
    ensures { result ≡ decimal word.now }
{
    if word.is_empty() {
        return None;
    }
    word.iter()
        .try_fold(0, |value, byte| with_digit(value, *byte))
}

// The value of a hexadecimal digit in upper case.
fn hex_digit(byte: u8) -> Option<u32>
    ensures value { result ≡ hex_digit byte }
    ensures small { IfSome result (λ d. d < 16) }
{
    if byte.is_ascii_lowercase() {
        return None;
    }
    (byte as char).to_digit(16)
}

// The number that a hexadecimal digit makes behind one already read.
fn with_hex_digit(value: u32, byte: u8) -> Option<u32>
    ensures { result ≡ with_hex_digit value byte }
{
    hex_digit(byte).map(|digit| value % 0x1000_0000 * 16 + digit)
}

// The word of 32 bits that the bytes write: 8 hexadecimal digits.
// Stays: `u32::from_str_radix` takes a leading `+`, and digits in lower case, which are no word here.
pub fn parse_word(word: &[u8]) -> Option<u32>
    ensures { result ≡ hex_word word.now }
{
    if word.len() != 8 {
        return None;
    }
    word.iter()
        .try_fold(0, |value, byte| with_hex_digit(value, *byte))
}

fn first_dash(text: &[u8]) -> Option<usize>
    ensures { result ≡ position (λ b. b == 45) text.now }
{
    text.iter().position(|byte| *byte == b'-')
}

// The number before the first dash, and what follows the dash.
#[tactic(auto, using(crate::proofs::Dashes::without, crate::proofs::Dashes::dashed))]
fn number_before_dash(text: &[u8]) -> Option<(u32, &[u8])>
    ensures { option_map (λ p. (p.0, p.1.now)) result ≡ before_dash text.now }
{
    let dash = first_dash(text)?;
    let number = parse_number(&text[..dash])?;
    Some((number, &text[dash + 1..]))
}

// A link: three numbers joined by dashes.
pub fn parse_link(word: &[u8]) -> Option<Link>
    ensures { result ≡ link_from word.now }
{
    let (source, rest) = number_before_dash(word)?;
    let (label, rest) = number_before_dash(rest)?;
    let target = parse_number(rest)?;
    Some(Link {
        source,
        label,
        target,
    })
}

// Whether a line is passed over: it is empty, has only blanks, or begins with '#'.
pub fn is_passed(line: &[u8]) -> bool
    ensures { result ≡ is_passed line.now }
{
    matches!(line, [b'#', ..]) || line.iter().all(|byte| is_blank(*byte))
}

// The words of a text that are not read yet.
#[derive(Clone, Copy, Debug)]
pub struct Words<'a> {
    pub text: &'a [u8],
}

impl<'a> Iterator for Words<'a> {
    type Item = &'a [u8];

    ghost next_gives = { λ before word after. (option_map (λ w. w.now) word ≡ next_word before.text.now) × (after.text.now ≡ after_word before.text.now) };

    ghost remaining = { λ words. at_most (length words.text.now) };

    fn next(&mut self) -> Option<&'a [u8]> {
        let (_, text) = self.text.split_at(run_len_by(self.text, is_blank));
        let (word, rest) = text.split_at(run_len_by(text, |byte| !is_blank(byte)));
        self.text = rest;
        if word.is_empty() { None } else { Some(word) }
    }
}
