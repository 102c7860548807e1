ghost use Rattle.held_store.specs.Undoing.{OffUndone, OnUndone};

// A change and its undoing leave no more changes held than before.
pub fn undoing_holds_no_more()
    ensures on { OnUndone }
    ensures off { OffUndone }
{}
