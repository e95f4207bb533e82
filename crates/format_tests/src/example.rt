// The recipe of docs/FORMAT.md, written as the document writes it.
use crate::reading::outcome;
use format::{Refusal, Rule};
use signals::WireSet;
use std::test::*;
use writing::writer::Writer;

// A rule from state 0 to state 0.
fn rule(present: u64, absent: u64, emits: u64) -> Rule {
    Rule {
        from: 0,
        to: 0,
        present: WireSet { bits: present },
        absent: WireSet { bits: absent },
        emits: WireSet { bits: emits },
    }
}

fn write_line(out: &mut [u8]) -> Result<usize, Refusal> {
    let finished = Writer::new()
        .wire(out, b"CAMERA")?
        .wire(out, b"PP-BLACK")?
        .wire(out, b"PP-BLACK-T20")?
        .wire(out, b"VALVE-1")?
        .wire(out, b"VALVE-2")?
        .machine(out, 1)?
        .rule(out, rule(0b00011, 0b00100, 0b01000))?
        .close()
        .machine(out, 1)?
        .rule(out, rule(0b00101, 0, 0b10000))?
        .close()
        .par(out)?
        .end(out)?;
    Ok(finished.length())
}

#[test]
fn the_documents_recipe(rt: HostRuntime) -> Result<(), Fail> {
    let mut out = [0u8; 185];
    assert_eq!(rt; write_line(&mut out)?, 185);
    assert_eq!(rt; outcome(&rt, &out), Ok(11));
    assert_eq!(rt; &out[125..130], b"\x02\x01\x03\0\0".as_slice());
    Ok(())
}
