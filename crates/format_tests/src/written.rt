// Writing: the bytes of each command, the space that it takes, and what a refusal leaves.
use crate::reading::numbered;
use format::{Refusal, Rule};
use signals::WireSet;
use std::test::*;
use writing::rewrite::rewrite;
use writing::writer::{Unwritten, Writer};

// The refusal and the position of the writer that came back.
fn refused<W: Drop>(written: Result<W, Unwritten<Writer>>) -> Option<(Refusal, usize)> {
    written.err().map(|unwritten| (unwritten.refusal, unwritten.writer.position()))
}

fn some_rule() -> Rule {
    Rule {
        from: 1,
        to: 2,
        present: WireSet {
            bits: 0x1112_1314_1516_1718,
        },
        absent: WireSet {
            bits: 0x2122_2324_2526_2728,
        },
        emits: WireSet {
            bits: 0x3132_3334_3536_3738,
        },
    }
}

#[test]
fn a_recipe_byte_by_byte(rt: HostRuntime) -> Result<(), Fail> {
    let mut out = [0xeeu8; 74];
    let hidden = WireSet {
        bits: 0x8000_0000_0000_0001,
    };
    let writer = Writer::new()
        .wire(&mut out, b"AB")?
        .machine(&mut out, 3)?
        .rule(&mut out, some_rule())?
        .close()
        .par(&mut out)?
        .hide(&mut out, hidden)?
        .unless(&mut out, 63)?
        .refine(&mut out, 5)?;
    assert_eq!(rt; writer.position(), 68);
    let finished = writer.end(&mut out)?;
    assert_eq!(rt; finished.length(), 69);
    assert_eq!(rt;
        &out[0..],
        b"\x01AB\0\0\0\0\0\0\0\0\0\0\0\0\0\0\0\0\0\0\0\0\0\0\x02\x03\x03\x01\x02\x11\x12\x13\x14\x15\x16\x17\x18\x21\x22\x23\x24\x25\x26\x27\x28\x31\x32\x33\x34\x35\x36\x37\x38\x04\x05\x80\0\0\0\0\0\0\x01\x06\x3f\x07\x05\x08\xee\xee\xee\xee\xee".as_slice()
    );
    Ok(())
}

// Each command into an output of exactly its length, and of one byte less.
#[test]
fn space(rt: HostRuntime) -> Result<(), Fail> {
    assert_eq!(rt; refused(Writer::new().wire(&mut [0u8; 25], b"A")), None);
    assert_eq!(rt;
        refused(Writer::new().wire(&mut [0u8; 24], b"A")),
        Some((Refusal::NoSpace, 0))
    );
    assert_eq!(rt; refused(Writer::new().machine(&mut [0u8; 2], 1)), None);
    assert_eq!(rt;
        refused(Writer::new().machine(&mut [0u8; 1], 1)),
        Some((Refusal::NoSpace, 0))
    );
    assert_eq!(rt;
        refused(Writer::new().hide(&mut [0u8; 9], WireSet { bits: 1 })),
        None
    );
    assert_eq!(rt;
        refused(Writer::new().hide(&mut [0u8; 8], WireSet { bits: 1 })),
        Some((Refusal::NoSpace, 0))
    );
    assert_eq!(rt; refused(Writer::new().par(&mut [0u8; 1])), None);
    assert_eq!(rt;
        refused(Writer::new().par(&mut [0u8; 0])),
        Some((Refusal::NoSpace, 0))
    );
    Ok(())
}

#[test]
fn space_of_the_others(rt: HostRuntime) -> Result<(), Fail> {
    assert_eq!(rt; refused(Writer::new().unless(&mut [0u8; 2], 1)), None);
    assert_eq!(rt;
        refused(Writer::new().unless(&mut [0u8; 1], 1)),
        Some((Refusal::NoSpace, 0))
    );
    assert_eq!(rt; refused(Writer::new().refine(&mut [0u8; 2], 1)), None);
    assert_eq!(rt;
        refused(Writer::new().refine(&mut [0u8; 1], 1)),
        Some((Refusal::NoSpace, 0))
    );
    assert_eq!(rt; refused(Writer::new().end(&mut [0u8; 1])), None);
    assert_eq!(rt;
        refused(Writer::new().end(&mut [0u8; 0])),
        Some((Refusal::NoSpace, 0))
    );
    assert_eq!(rt;
        refused(Writer::new().wire(&mut [0u8; 25], b"ABCDEFGHIJKLMNOPQRSTUVW")),
        None
    );
    assert_eq!(rt;
        refused(Writer::new().wire(&mut [0u8; 25], b"ABCDEFGHIJKLMNOPQRSTUVWX")),
        None
    );
    Ok(())
}

// The name is asked about before the space, and a refusal changes nothing.
#[test]
fn a_refused_write_changes_nothing(rt: HostRuntime) -> Result<(), Fail> {
    let mut out = [0xeeu8; 3];
    let writer = Writer::new().par(&mut out)?;
    assert_eq!(rt;
        refused(writer.wire(&mut out, b"a")),
        Some((Refusal::MalformedName, 1))
    );
    assert_eq!(rt;
        refused(Writer::new().wire(&mut out, b"")),
        Some((Refusal::MalformedName, 0))
    );
    assert_eq!(rt;
        refused(Writer::new().wire(&mut out, b"ABCDEFGHIJKLMNOPQRSTUVWXY")),
        Some((Refusal::MalformedName, 0))
    );
    assert_eq!(rt;
        refused(Writer::new().wire(&mut out, b"A")),
        Some((Refusal::NoSpace, 0))
    );
    assert_eq!(rt; &out[0..], b"\x04\xee\xee".as_slice());
    Ok(())
}

#[test]
fn a_refused_rule_hands_back_the_writer_in_its_machine(rt: HostRuntime) -> Result<(), Fail> {
    let mut out = [0xeeu8; 28];
    let machine = Writer::new().machine(&mut out, 1)?;
    let Err(unwritten) = machine.rule(&mut out, some_rule()) else {
        return Err(Fail::new("28 bytes were enough for MACHINE and RULE"));
    };
    assert_eq!(rt; unwritten.refusal, Refusal::NoSpace);
    assert_eq!(rt; unwritten.writer.close().position(), 2);
    assert_eq!(rt; out[2], 0xee);
    Ok(())
}

// What rewriting answers, by length or by number and position.
fn rewritten(recipe: &[u8], out: &mut [u8]) -> Result<usize, (u8, usize)> {
    rewrite(recipe, out).map_err(numbered)
}

#[test]
fn rewriting_gives_the_same_bytes(rt: HostRuntime) -> Result<(), Fail> {
    let recipe =
        b"\x01AB\0\0\0\0\0\0\0\0\0\0\0\0\0\0\0\0\0\0\0\0\0\0\x02\x03\x03\x01\x02\x11\x12\x13\x14\x15\x16\x17\x18\x21\x22\x23\x24\x25\x26\x27\x28\x31\x32\x33\x34\x35\x36\x37\x38\x04\x05\x80\0\0\0\0\0\0\x01\x06\x3f\x07\x05\x08";
    let mut out = [0xeeu8; 70];
    assert_eq!(rt; rewritten(recipe, &mut out), Ok(69));
    assert_eq!(rt; &out[0..69], &recipe[0..69]);
    assert_eq!(rt; out[69], 0xee);
    assert_eq!(rt; rewritten(recipe, &mut [0u8; 69]), Ok(69));
    assert_eq!(rt; rewritten(recipe, &mut [0u8; 68]), Err((51, 0)));
    Ok(())
}

// A RULE behind anything but MACHINE and RULE is refused at its own position, before what comes behind it and before
// want of space.
#[test]
fn a_rule_elsewhere_is_refused(rt: HostRuntime) -> Result<(), Fail> {
    let mut out = [0xeeu8; 4];
    let rule = b"\x04\x03\0\0\0\0\0\0\0\0\0\0\0\0\0\0\0\0\0\0\0\0\0\0\0\0\0\0\x09";
    assert_eq!(rt; rewritten(&rule[1..], &mut out), Err((9, 0)));
    assert_eq!(rt; rewritten(&rule[0..], &mut out), Err((9, 1)));
    assert_eq!(rt; rewritten(&rule[0..27], &mut out), Err((3, 1)));
    assert_eq!(rt; rewritten(b"\x02\x01\x04\x09", &mut out), Err((2, 3)));
    assert_eq!(rt;
        rewritten(
            b"\x02\x01\x05\0\0\0\0\0\0\0\0\x03\0\0\0\0\0\0\0\0\0\0\0\0\0\0\0\0\0\0\0\0\0\0\0\0\0\0\x08",
            &mut out,
        ),
        Err((9, 11))
    );
    assert_eq!(rt; &out[0..], b"\xee\xee\xee\xee".as_slice());
    Ok(())
}
