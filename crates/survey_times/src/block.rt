// A block of 120 meters and flats on 8 risers, two thirds of the flats with a contract.
use links::{Link, Store, SwitchRefusal};

fn switch_on<S: Store>(
    store: &mut S,
    source: u32,
    label: u32,
    target: u32,
) -> Result<(), SwitchRefusal> {
    store.switch_on(Link {
        source,
        label,
        target,
    })
}

// A meter that feeds a flat, both on one riser.
fn record_flat<S: Store>(
    store: &mut S,
    meter: u32,
    flat: u32,
    riser: u32,
) -> Result<(), SwitchRefusal> {
    switch_on(store, meter, 0, 0)?;
    switch_on(store, meter, 1, flat)?;
    switch_on(store, meter, 2, riser)?;
    switch_on(store, flat, 0, 1)?;
    switch_on(store, flat, 2, riser)
}

pub fn record_block<S: Store>(store: &mut S) -> Result<(), SwitchRefusal> {
    for riser in 64..72u32 {
        switch_on(store, riser, 0, 3)?;
    }
    for i in 0..120u32 {
        let meter = 72 + 2 * i;
        let flat = meter + 1;
        record_flat(store, meter, flat, 64 + i % 8)?;
    }
    for i in 0..80u32 {
        let contract = 312 + i;
        switch_on(store, contract, 0, 2)?;
        switch_on(store, contract, 3, 73 + 2 * i)?;
    }
    Ok(())
}
