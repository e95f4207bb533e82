// Counters: what they can count to, their wires, and when they emit.
use crate::example::{A, B, NONE};
use machines::Counter;
use parts::Part;
use signals::WireSet;
use std::test::Fail;

// The number of the refusal, which is what people know; nothing where the counter is made.
fn refused(input: u8, output: u8, number: u64) -> Option<u8> {
    Counter::new(input, output, number)
        .err()
        .map(|refusal| refusal.number())
}

#[test]
fn one_to_sixty_thousand(rt: HostRuntime) {
    assert_eq!(rt; refused(0, 1, 0), Some(36));
    assert_eq!(rt; refused(0, 1, 1), None);
    assert_eq!(rt; refused(0, 1, 60_000), None);
    assert_eq!(rt; refused(0, 1, 60_001), Some(36));
    // in 16 bits these would be 1 and 0
    assert_eq!(rt; refused(0, 1, 65_537), Some(36));
    assert_eq!(rt; refused(0, 1, 0x1_0000_0000_0001), Some(36));
    assert_eq!(rt; refused(0, 1, 65_536), Some(36));
}

#[test]
fn wires_below_64(rt: HostRuntime) {
    assert_eq!(rt; refused(63, 63, 1), None);
    assert_eq!(rt; refused(64, 1, 1), Some(37));
    assert_eq!(rt; refused(0, 64, 1), Some(37));
    assert_eq!(rt; refused(255, 255, 1), Some(37));
    // the number is asked for first
    assert_eq!(rt; refused(64, 64, 0), Some(36));
}

// n = 1: each tick with A. n = 2: each second one; ticks without A do not count.
#[test]
fn each_n_th_tick(rt: HostRuntime) -> Result<(), Fail> {
    let mut every = Counter::new(0, 1, 1)?;
    assert_eq!(rt; every.step(A), Ok(B));
    assert_eq!(rt; every.step(NONE), Ok(NONE));
    assert_eq!(rt; every.step(A), Ok(B));
    let mut second = Counter::new(0, 1, 2)?;
    assert_eq!(rt; second.step(A), Ok(NONE));
    assert_eq!(rt; second.step(NONE), Ok(NONE));
    assert_eq!(rt; second.step(B), Ok(NONE));
    assert_eq!(rt; second.look(A), Ok(B));
    assert_eq!(rt; second.step(A), Ok(B));
    assert_eq!(rt; second.step(A), Ok(NONE));
    second.restart();
    assert_eq!(rt; second.step(A), Ok(NONE));
    assert_eq!(rt; second.step(A), Ok(B));
    Ok(())
}

#[test]
fn the_sixty_thousandth(rt: HostRuntime) -> Result<(), Fail> {
    let mut counter = Counter::new(0, 1, 60_000)?;
    for _ in 1..60_000u32 {
        assert_eq!(rt; counter.step(A), Ok(NONE));
    }
    assert_eq!(rt; counter.step(A), Ok(B));
    assert_eq!(rt; counter.step(A), Ok(NONE));
    Ok(())
}

// In and out are the same wire, the last one.
#[test]
fn one_wire_for_both(rt: HostRuntime) -> Result<(), Fail> {
    let last = WireSet {
        bits: 0x8000_0000_0000_0000,
    };
    let mut counter = Counter::new(63, 63, 2)?;
    assert_eq!(rt; counter.wires_read(), last);
    assert_eq!(rt; counter.wires_emitted(), last);
    assert_eq!(rt; counter.step(last), Ok(NONE));
    assert_eq!(rt; counter.step(last), Ok(last));
    Ok(())
}
