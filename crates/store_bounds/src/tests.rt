use bit_store::BitStore;
use links::{Link, Links, MakeRefusal, Sizes, Store, SwitchRefusal};
use list_store::ListStore;
use std::alloc::Global;
use std::process::Abort;
use std::test::Fail;

fn link(source: u32, label: u32, target: u32) -> Link {
    Link {
        source,
        label,
        target,
    }
}

fn refused(rt: &impl Abort, answer: Result<(), SwitchRefusal>, why: SwitchRefusal) {
    assert_eq!(rt; answer, Err(why));
}

// The last node that a store of so many things knows.
fn last_node(things: u32) -> u32 {
    things.saturating_add(63)
}

// The four corners of the sizes are taken, and one past each is not a link.
fn corners<S: Store>(rt: &impl Abort, store: &mut S) {
    let last = last_node(store.sizes().things());
    assert_eq!(rt; store.link_count(), 0, "a new store is empty");
    for (label, target) in [(0, 0), (0, 63), (15, 0), (15, last)] {
        assert_eq!(rt; store.switch_on(link(64, label, target)), Ok(()));
        assert!(rt; store.is_on(link(64, label, target)));
    }
    assert_eq!(rt; store.switch_on(link(last, 7, last)), Ok(()));
    assert_eq!(rt; store.link_count(), 5);
    refused(
        rt,
        store.switch_on(link(63, 0, 0)),
        SwitchRefusal::NoSuchLink,
    );
    refused(
        rt,
        store.switch_on(link(last.saturating_add(1), 0, 0)),
        SwitchRefusal::NoSuchLink,
    );
    refused(
        rt,
        store.switch_on(link(64, 16, 0)),
        SwitchRefusal::NoSuchLink,
    );
    refused(
        rt,
        store.switch_off(link(64, 0, last.saturating_add(1))),
        SwitchRefusal::NoSuchLink,
    );
    refused(
        rt,
        store.switch_on(link(u32::MAX, u32::MAX, u32::MAX)),
        SwitchRefusal::NoSuchLink,
    );
    refused(
        rt,
        store.switch_on(link(64, 15, last)),
        SwitchRefusal::AlreadyOn,
    );
    refused(
        rt,
        store.switch_off(link(64, 14, last)),
        SwitchRefusal::NotOn,
    );
    assert_eq!(rt; store.link_count(), 5);
}

// The questions at the corners, of the links that `corners` leaves.
fn questions<S: Store>(rt: &impl Abort, store: &S) {
    let last = last_node(store.sizes().things());
    assert_eq!(rt; store.next_target(64, 0, 0), Some(0));
    assert_eq!(rt; store.next_target(64, 0, 1), Some(63));
    assert_eq!(rt; store.next_target(64, 0, 64), None);
    assert_eq!(rt; store.next_target(64, 15, 1), Some(last));
    assert_eq!(rt; store.next_target(last, 7, last.saturating_add(1)), None);
    assert_eq!(rt; store.next_target(64, 16, 0), None);
    assert_eq!(rt; store.next_source(0, 0, 0), Some(64));
    assert_eq!(rt; store.next_source(last, 7, 0), Some(last));
    assert_eq!(rt; store.next_source(last, 7, last.saturating_add(1)), None);
    assert_eq!(rt; store.next_source(u32::MAX, 0, 0), None);
    let spare = store.spare_thing();
    assert_eq!(rt; spare.is_none(), last <= 65);
    assert!(rt; spare != Some(64) && spare != Some(last));
}

// Fills a store of 448 things, and then offers one link more.
fn fill<S: Store>(rt: &impl Abort, store: &mut S) {
    let limit = store.sizes().limit();
    for source in 64..128 {
        for label in 0..16 {
            for target in 0..4 {
                let expected = if store.link_count() < limit {
                    Ok(())
                } else {
                    Err(SwitchRefusal::Full)
                };
                assert_eq!(rt; store.switch_on(link(source, label, target)), expected);
            }
        }
    }
    assert_eq!(rt; store.link_count(), limit);
    refused(rt, store.switch_on(link(511, 0, 0)), SwitchRefusal::Full);
    refused(
        rt,
        store.switch_on(link(64, 0, 0)),
        SwitchRefusal::AlreadyOn,
    );
    refused(
        rt,
        store.switch_on(link(512, 0, 0)),
        SwitchRefusal::NoSuchLink,
    );
    assert_eq!(rt; store.switch_off(link(64, 0, 0)), Ok(()));
    assert_eq!(rt; store.switch_on(link(511, 15, 511)), Ok(()));
}

fn sizes_in(answer: Result<Sizes, MakeRefusal>) -> Result<(u32, usize), MakeRefusal> {
    let sizes = answer?;
    Ok((sizes.things(), sizes.limit()))
}

#[test]
fn asking(rt: HostRuntime) {
    let out = Err(MakeRefusal::OutOfRange);
    assert_eq!(rt; sizes_in(ListStore::ask(1, 1, 1)), Ok((1, 1)));
    assert_eq!(rt; sizes_in(ListStore::ask(448, 4096, 5000)), Ok((448, 4096)));
    assert_eq!(rt; sizes_in(ListStore::ask(448, 4096, 4095)), out);
    assert_eq!(rt; sizes_in(ListStore::ask(0, 1, 1)), out);
    assert_eq!(rt; sizes_in(ListStore::ask(449, 1, 1)), out);
    assert_eq!(rt; sizes_in(ListStore::ask(1, 0, 1)), out);
    assert_eq!(rt; sizes_in(ListStore::ask(1, 4097, 5000)), out);
    assert_eq!(rt; sizes_in(BitStore::ask(2, 1, 66)), Ok((2, 1)));
    assert_eq!(rt; sizes_in(BitStore::ask(2, 1, 65)), out);
    assert_eq!(rt; sizes_in(BitStore::ask(1, 4096, 33)), Ok((1, 4096)));
    assert_eq!(rt; sizes_in(BitStore::ask(1, 1, 32)), out);
    assert_eq!(rt; sizes_in(BitStore::ask(448, 4096, 114688)), Ok((448, 4096)));
    assert_eq!(rt; sizes_in(BitStore::ask(448, 4096, 114687)), out);
    assert_eq!(rt; sizes_in(BitStore::ask(449, 1, 200000)), out);
    assert_eq!(rt;
        sizes_in(BitStore::ask(u32::MAX, usize::MAX, usize::MAX)),
        out
    );
}

// Takes the steps with a list store, over memory that held one link throughout.
// Stays: a store borrows its memory, so one maker of both stores would want an associated type with a lifetime.
fn on_list<F: FnOnce(&mut ListStore)>(
    heap: Global,
    things: u32,
    limit: usize,
    held: Link,
    steps: F,
) -> Result<(), Fail>
    requires { F.IsAlwaysCallable steps }
{
    let Ok(sizes) = ListStore::ask(things, limit, limit) else {
        return Err(Fail::new("refused"));
    };
    let mut memory = vec![in heap; held; limit]?;
    steps(&mut ListStore::new(sizes, memory.as_mut_slice()));
    Ok(())
}

// Takes the steps with a bit store, over memory whose bits were all on.
fn on_bits<F: FnOnce(&mut BitStore)>(
    heap: Global,
    things: u32,
    limit: usize,
    steps: F,
) -> Result<(), Fail>
    requires { F.IsAlwaysCallable steps }
{
    let Ok(sizes) = BitStore::ask(things, limit, 114688) else {
        return Err(Fail::new("refused"));
    };
    let mut memory = vec![in heap; u32::MAX; BitStore::words_needed(sizes)]?;
    steps(&mut BitStore::new(sizes, memory.as_mut_slice()));
    Ok(())
}

#[test]
fn list_corners(rt: HostRuntime) -> Result<(), Fail> {
    for things in [1, 448] {
        on_list(rt.alloc(), things, 8, link(64, 0, 1), |store| {
            corners(&rt, store);
            questions(&rt, store);
        })?;
    }
    Ok(())
}

#[test]
fn bits_corners(rt: HostRuntime) -> Result<(), Fail> {
    for things in [1, 448] {
        on_bits(rt.alloc(), things, 8, |store| {
            corners(&rt, store);
            questions(&rt, store);
        })?;
    }
    Ok(())
}

#[test]
fn full(rt: HostRuntime) -> Result<(), Fail> {
    for limit in [1, 4096] {
        on_list(
            rt.alloc(),
            448,
            limit,
            link(64, 0, 0),
            |store| fill(&rt, store),
        )?;
        on_bits(rt.alloc(), 448, limit, |store| fill(&rt, store))?;
    }
    Ok(())
}
