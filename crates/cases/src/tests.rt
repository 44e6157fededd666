// An engine given by its type alone: case 13, and the same bytes as by its value.
use answers::{Answer, Done};
use layout::Table;
use rows::by_value::{ByType, EngineValue};
use rows::{Engine, Ranked, Short};
use std::marker::PhantomData;

// Case 13: two puts on one key, each delivered to the other site. Then a put over an entry that no get has read, and a get
// of one with causes.
fn calls<E: EngineValue>(t: &mut [u8], engine: E) -> [Answer; 16] {
    [
        table::open(t, 3, 2),
        table::put(t, 0, 0, 5, engine),
        table::put(t, 1, 0, 6, engine),
        deliver::deliver(t, 0, 1, engine),
        deliver::deliver(t, 1, 0, engine),
        look::look(t, 0, 0),
        look::look(t, 1, 0),
        table::put(t, 0, 0, 7, engine),
        table::put(t, 2, 1, 8, engine),
        deliver::deliver(t, 0, 2, engine),
        deliver::deliver(t, 1, 2, engine),
        table::get(t, 0, 1, engine),
        table::put(t, 0, 1, 9, engine),
        deliver::deliver(t, 1, 0, engine),
        deliver::deliver(t, 1, 0, engine),
        table::get(t, 1, 1, engine),
    ]
}

fn by_type<E: Engine>(t: &mut [u8]) -> [Answer; 16] {
    calls(t, ByType::<E>(PhantomData))
}

// What is read of a first put on key 0.
fn read(site: u8, value: u32) -> Answer {
    Ok(Done::Call {
        key: 0,
        site,
        clock: 1,
        value,
    })
}

#[test]
fn winner_by_type(rt: HostRuntime) {
    let mut t = [0u8; Table::BYTES];
    let mut u = [0u8; Table::BYTES];
    let ranked = by_type::<Ranked>(&mut t);
    assert_eq!(rt; ranked[5], read(1, 6));
    assert_eq!(rt; ranked[6], read(1, 6));
    assert!(rt; ranked.iter().all(|a| a.is_ok()));
    assert_eq!(rt; ranked, calls(&mut u, Ranked));
    assert!(rt; t == u);
    let short = by_type::<Short>(&mut t);
    assert_eq!(rt; short[5], read(1, 6));
    assert_eq!(rt; short[6], read(0, 5));
    assert!(rt; t != u, "the engines leave the same bytes");
    assert_eq!(rt; short, calls(&mut u, Short));
    assert!(rt; t == u);
}
