ghost use Rattle.std.specs.Prelude.{◌≡◌, ◌≤◌, [], length};
ghost use Rattle.links.specs.Numbers.{Asked};
ghost use Rattle.links.specs.Sets.{InRange};
ghost use Rattle.bit_store.specs.Places.{links_in, words_for};

use super::BitStore;
use links::{MakeRefusal, Sizes};

impl<'a> BitStore<'a> {
    // How many words of 32 bits a store of these sizes takes.
    pub fn words_needed(sizes: Sizes) -> usize
        ensures is { result ≡ words_for sizes.things }
        ensures few { result ≤ 114688 }
    {
        let things = sizes.things() as usize;
        (things * (64 + things) + 1) / 2
    }

    // Asks for a store of these sizes over memory of so many words.
    // Stays: beside the call of `Sizes::ask` the two stores share a comparison, and each compares with its own length.
    pub fn ask(things: u32, limit: usize, words: usize) -> Result<Sizes, MakeRefusal>
        ensures { Asked things limit (InRange things limit × (words_for things ≤ words)) result }
    {
        let sizes = Sizes::ask(things, limit)?;
        if words < Self::words_needed(sizes) {
            return Err(MakeRefusal::OutOfRange);
        }
        Ok(sizes)
    }

    // An empty store, whatever the memory held.
    pub fn new(sizes: Sizes, words: &'a mut [u32]) -> BitStore<'a>
        requires { words_for sizes.things ≤ length words.old }
        ensures empty { links_in result.words.now sizes.things ≡ [] }
        ensures things { result.sizes.things ≡ sizes.things }
        ensures limit { result.sizes.limit ≡ sizes.limit }
    {
        words[..Self::words_needed(sizes)].fill(0);
        BitStore {
            words,
            sizes,
            count: 0,
        }
    }
}
