// One word: its kind in bits 31 to 28, and its fields.
ghost use Rattle.std.specs.Prelude.{◌≡◌, ◌%◌};
ghost use Rattle.words.specs.Words.{kind_number, kind_of, item_of, link_of, share_of};

use crate::faults::WordFault;

// What a word is, by the number in its bits 31 to 28.
#[derive(Clone, Copy, Debug, PartialEq, Eq)]
pub enum Kind {
    Opens = 1,
    LinkToVariable = 2,
    LinkToMark = 3,
    Bans = 4,
    Shares = 5,
    StrikesNeed = 6,
    StrikesThing = 7,
    Makes = 8,
    Ends = 9,
}

impl Kind {
    // The kind of a word, none where its number is outside 1 to 9.
    // Stays: the one place that gives the format's numbers their kinds; `TryFrom` would want an error that nobody reads.
    pub fn of(word: u32) -> Option<Kind>
        ensures { result ≡ kind_of word }
    {
        match word >> 28 {
            1 => Some(Kind::Opens),
            2 => Some(Kind::LinkToVariable),
            3 => Some(Kind::LinkToMark),
            4 => Some(Kind::Bans),
            5 => Some(Kind::Shares),
            6 => Some(Kind::StrikesNeed),
            7 => Some(Kind::StrikesThing),
            8 => Some(Kind::Makes),
            9 => Some(Kind::Ends),
            _ => None,
        }
    }

    pub fn number(self) -> u32
        ensures { result ≡ kind_number self }
    {
        self as u32
    }
}

// The far end of a link of a pattern.
#[derive(Clone, Copy, Debug, PartialEq, Eq)]
pub enum Target {
    Variable(u32),
    Mark(u32),
}

// A link of a pattern or of the makes, from a variable.
#[derive(Clone, Copy, Debug, PartialEq, Eq)]
pub struct PatternLink {
    pub label: u32,
    pub source: u32,
    pub target: Target,
}

// A variable of a ban: new, or the rule's variable of that number. Any other two bytes say neither, and are kept.
#[derive(Clone, Copy, Debug, PartialEq, Eq)]
pub enum Share {
    New,
    With(u32),
    Neither(u32),
}

// What a word says.
#[derive(Clone, Copy, Debug, PartialEq, Eq)]
pub enum Item {
    Opens(u32),
    Link(PatternLink),
    Bans(u32),
    Shares(Share),
    StrikesNeed(u32),
    StrikesThing(u32),
    Makes(u32),
    Ends,
}

impl TryFrom<u32> for Item {
    type Error = WordFault;

    ghost try_from_gives = { λ word r. r ≡ item_of word };

    fn try_from(word: u32) -> Result<Item, WordFault> {
        let rest = word % 268435456;
        let low = low_byte(word);
        match Kind::of(word) {
            Some(Kind::Opens) if rest < 256 => Ok(Item::Opens(low)),
            Some(Kind::LinkToVariable | Kind::LinkToMark) if rest < 16777216 => {
                Ok(Item::Link(PatternLink::from(word)))
            }
            Some(Kind::Bans) if rest < 256 => Ok(Item::Bans(low)),
            Some(Kind::Shares) if rest < 65536 => Ok(Item::Shares(Share::from(word))),
            Some(Kind::StrikesNeed) if rest < 256 => Ok(Item::StrikesNeed(low)),
            Some(Kind::StrikesThing) if rest < 256 => Ok(Item::StrikesThing(low)),
            Some(Kind::Makes) if rest < 256 => Ok(Item::Makes(low)),
            Some(Kind::Ends) if rest < 1 => Ok(Item::Ends),
            _ => Err(WordFault { word }),
        }
    }
}

// The link that a word of a link's kind says; of any other word its fields, read alike.
impl From<u32> for PatternLink {
    ghost from_gives = { λ word link. link ≡ link_of word };

    fn from(word: u32) -> PatternLink {
        let low = low_byte(word);
        let target = match Kind::of(word) {
            Some(Kind::LinkToMark) => Target::Mark(low),
            _ => Target::Variable(low),
        };
        PatternLink {
            label: word / 65536 % 256,
            source: word / 256 % 256,
            target,
        }
    }
}

// The ban variable that a word of its kind says; of any other word its fields, read alike.
impl From<u32> for Share {
    ghost from_gives = { λ word share. share ≡ share_of word };

    fn from(word: u32) -> Share {
        match (word / 256 % 256, low_byte(word)) {
            (0, 0) => Share::New,
            (1, variable) => Share::With(variable),
            _ => Share::Neither(word % 65536),
        }
    }
}

// Bits 7 to 0: the number of an opening, of a strike and of the makes.
pub fn low_byte(word: u32) -> u32
    ensures { result ≡ word % 256 }
{
    word % 256
}
