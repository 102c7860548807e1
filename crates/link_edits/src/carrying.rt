// An edit carried out on a store.
ghost use Rattle.std.specs.Prelude.{◌≡◌};
ghost use Rattle.link_edits.specs.Edits.{after};
ghost use Rattle.links.specs.Sets.{KeepsSizes, Within};

use crate::edit::Edit;
use links::Store;

// Switches the links off, then the links on. Where the edited set is within the limit, the store has it then:
// no switching that the edit needs is refused. The sizes stay in any case.
// Stays: that the sizes stay relates the set before to the set after, which no type can say.
pub fn carry_out<S: Store>(store: &mut S, edit: Edit)
    ensures links { Within (after edit.entry (S.Links.set store.old)) → S.Links.set store.new ≡ after edit.entry (S.Links.set store.old) }
    ensures sizes { KeepsSizes (S.Links.set store.old) (S.Links.set store.new) }
{
    for link in edit.off {
        let _ = store.switch_off(*link);
    }
    for link in edit.on {
        let _ = store.switch_on(*link);
    }
}
