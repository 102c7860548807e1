use bit_store::BitStore;
use held_store::HeldStore;
use links::{Link, Links, Store, SwitchRefusal};
use list_store::ListStore;
use std::alloc::Global;
use std::process::Abort;
use std::test::Fail;

fn link(target: u32) -> Link {
    Link {
        source: 64,
        label: 0,
        target,
    }
}

// Sixteen changes, a seventeenth and its undoing, over an empty store of 17 links at most.
fn seventeen<S: Store>(rt: &impl Abort, layer: &mut HeldStore<S>) {
    for target in 0..16 {
        assert_eq!(rt; layer.switch_on(link(target)), Ok(()));
    }
    assert_eq!(rt; layer.held_count(), 16);
    assert_eq!(rt; layer.switch_on(link(16)), Ok(()));
    assert_eq!(rt; layer.held_count(), 1);
    assert_eq!(rt; layer.link_count(), 17);
    assert_eq!(rt; layer.switch_on(link(17)), Err(SwitchRefusal::Full));
    assert_eq!(rt; layer.switch_off(link(16)), Ok(()));
    assert_eq!(rt; layer.held_count(), 0);
}

// A held switching off, its settling, and one that is undone.
fn settling<S: Store>(rt: &impl Abort, layer: &mut HeldStore<S>) {
    assert_eq!(rt; layer.switch_off(link(3)), Ok(()));
    assert_eq!(rt; layer.switch_off(link(3)), Err(SwitchRefusal::NotOn));
    assert_eq!(rt; layer.next_target(64, 0, 3), Some(4));
    assert_eq!(rt; layer.next_source(3, 0, 0), None);
    assert_eq!(rt; layer.link_count(), 15);
    assert_eq!(rt; layer.settle(), 1);
    assert_eq!(rt; layer.settle(), 0);
    assert_eq!(rt; layer.next_target(64, 0, 3), Some(4));
    assert_eq!(rt; layer.switch_off(link(4)), Ok(()));
    assert_eq!(rt; layer.switch_on(link(4)), Ok(()));
    assert_eq!(rt; layer.held_count(), 0);
    assert_eq!(rt; layer.spare_thing(), Some(65));
}

// How many layers stand over a store.
trait Layers {
    fn over<A: Abort, S: Store + Drop>(rt: &A, base: S) -> Result<(), Fail>;
}

struct One;

impl Layers for One {
    fn over<A: Abort, S: Store + Drop>(rt: &A, base: S) -> Result<(), Fail> {
        let mut layer = HeldStore::new(base);
        seventeen(rt, &mut layer);
        settling(rt, &mut layer);
        Ok(())
    }
}

struct Two;

impl Layers for Two {
    fn over<A: Abort, S: Store + Drop>(rt: &A, base: S) -> Result<(), Fail> {
        One::over(rt, HeldStore::new(base))
    }
}

// Takes the steps over a list store of 17 links at most.
// Stays: a store borrows its memory, so one maker of both stores would want an associated type with a lifetime.
fn over_list<L: Layers>(rt: &impl Abort, heap: Global) -> Result<(), Fail> {
    let Ok(sizes) = ListStore::ask(2, 17, 17) else {
        return Err(Fail::new("refused"));
    };
    let mut memory = vec![in heap; link(0); 17]?;
    L::over(rt, ListStore::new(sizes, memory.as_mut_slice()))
}

// Takes the steps over a bit store of 17 links at most.
fn over_bits<L: Layers>(rt: &impl Abort, heap: Global) -> Result<(), Fail> {
    let Ok(sizes) = BitStore::ask(2, 17, 1000) else {
        return Err(Fail::new("refused"));
    };
    let mut memory = vec![in heap; u32::MAX; BitStore::words_needed(sizes)]?;
    L::over(rt, BitStore::new(sizes, memory.as_mut_slice()))
}

#[test]
fn one_layer(rt: HostRuntime) -> Result<(), Fail> {
    over_list::<One>(&rt, rt.alloc())?;
    over_bits::<One>(&rt, rt.alloc())
}

#[test]
fn two_layers(rt: HostRuntime) -> Result<(), Fail> {
    over_list::<Two>(&rt, rt.alloc())?;
    over_bits::<Two>(&rt, rt.alloc())
}
