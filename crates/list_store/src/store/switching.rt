use super::ListStore;
use links::{Link, Store, SwitchRefusal};

impl<'a> Store for ListStore<'a> {
    fn switch_on(&mut self, link: Link) -> Result<(), SwitchRefusal> {
        if !self.sizes.contain(link) {
            return Err(SwitchRefusal::NoSuchLink);
        }
        self.list.insert(link)?;
        Ok(())
    }

    fn switch_off(&mut self, link: Link) -> Result<(), SwitchRefusal> {
        if !self.sizes.contain(link) {
            return Err(SwitchRefusal::NoSuchLink);
        }
        self.list.remove(&link).ok_or(SwitchRefusal::NotOn)?;
        Ok(())
    }
}
