// The stages of a reading, and which words may follow at each.
ghost use Rattle.std.specs.Prelude.{◌≡◌};
ghost use Rattle.words.specs.Steps.{may};

use crate::items::Item;
use crate::tables::MAY;

#[derive(Clone, Copy, Debug, PartialEq, Eq)]
pub enum Stage {
    Outside,
    Opened,
    Needs,
    BanOpened,
    BanReady,
    BanLinks,
    StruckNeeds,
    StruckThings,
    MakesOpened,
    Made,
}

pub fn allowed(stage: Stage, item: Item) -> bool
    ensures { result ≡ may stage item }
{
    let column = match item {
        Item::Opens(_) => 0,
        Item::Link(_) => 1,
        Item::Bans(_) => 2,
        Item::Shares(_) => 3,
        Item::StrikesNeed(_) => 4,
        Item::StrikesThing(_) => 5,
        Item::Makes(_) => 6,
        Item::Ends => 7,
    };
    MAY[stage as usize][column]
}
