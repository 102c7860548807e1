use super::BitStore;
use crate::bits::{with_bit, without_bit};
use links::{Link, Store, SwitchRefusal};

impl<'a> Store for BitStore<'a> {
    fn switch_on(&mut self, link: Link) -> Result<(), SwitchRefusal> {
        let place = self.place_of(link).ok_or(SwitchRefusal::NoSuchLink)?;
        if self.is_bit_on(place) {
            return Err(SwitchRefusal::AlreadyOn);
        }
        if self.count == self.sizes.limit() {
            return Err(SwitchRefusal::Full);
        }
        self.words[place / 32] = with_bit(self.words[place / 32], place % 32);
        self.count += 1;
        Ok(())
    }

    fn switch_off(&mut self, link: Link) -> Result<(), SwitchRefusal> {
        let place = self.place_of(link).ok_or(SwitchRefusal::NoSuchLink)?;
        if !self.is_bit_on(place) {
            return Err(SwitchRefusal::NotOn);
        }
        self.words[place / 32] = without_bit(self.words[place / 32], place % 32);
        self.count -= 1;
        Ok(())
    }
}
