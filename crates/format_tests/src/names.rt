// Names: which fields of 24 bytes hold one.
use crate::reading::outcome;
use std::process::Abort;
use std::test::*;

const WELL_FORMED: Result<usize, (u8, usize)> = Ok(2);

const MALFORMED: Result<usize, (u8, usize)> = Err((5, 0));

// What reading answers of a recipe of a WIRE with this field, and END.
fn with_field(rt: &impl AllocGlobal, field: &[u8; 24]) -> Result<usize, (u8, usize)> {
    let mut recipe = [0; 26];
    recipe[0] = 1;
    recipe[1..25].copy_from_slice(field);
    recipe[25] = 8;
    outcome(rt, &recipe)
}

// Each of these fields is read so.
fn all_read_as(
    rt: &(impl Abort + AllocGlobal),
    fields: &[&[u8; 24]],
    expected: Result<usize, (u8, usize)>,
) -> Result<(), Fail> {
    for field in fields {
        assert_eq!(rt; with_field(rt, field), expected);
    }
    Ok(())
}

// Names of one byte, of some, of 23 and of 24, which fill the field.
#[test]
fn well_formed(rt: HostRuntime) -> Result<(), Fail> {
    let names = [
        b"A\0\0\0\0\0\0\0\0\0\0\0\0\0\0\0\0\0\0\0\0\0\0\0",
        b"Z\0\0\0\0\0\0\0\0\0\0\0\0\0\0\0\0\0\0\0\0\0\0\0",
        b"A0\0\0\0\0\0\0\0\0\0\0\0\0\0\0\0\0\0\0\0\0\0\0",
        b"A9\0\0\0\0\0\0\0\0\0\0\0\0\0\0\0\0\0\0\0\0\0\0",
        b"A-\0\0\0\0\0\0\0\0\0\0\0\0\0\0\0\0\0\0\0\0\0\0",
        b"PP-BLACK\0\0\0\0\0\0\0\0\0\0\0\0\0\0\0\0",
        b"PP-BLACK-T20\0\0\0\0\0\0\0\0\0\0\0\0",
        b"ABCDEFGHIJKLMNOPQRSTUVW\0",
        b"ABCDEFGHIJKLMNOPQRSTUVWX",
        b"A----------------------9",
    ];
    all_read_as(&rt, &names, WELL_FORMED)
}

#[test]
fn first_bytes(rt: HostRuntime) -> Result<(), Fail> {
    let names = [
        // zero first
        b"\0\0\0\0\0\0\0\0\0\0\0\0\0\0\0\0\0\0\0\0\0\0\0\0",
        // zero first, then a name
        b"\0AAAAAAAAAAAAAAAAAAAAAAA",
        // a digit first
        b"1A\0\0\0\0\0\0\0\0\0\0\0\0\0\0\0\0\0\0\0\0\0\0",
        // a hyphen first
        b"-A\0\0\0\0\0\0\0\0\0\0\0\0\0\0\0\0\0\0\0\0\0\0",
        // lower case first
        b"pP\0\0\0\0\0\0\0\0\0\0\0\0\0\0\0\0\0\0\0\0\0\0",
        // below A
        b"@A\0\0\0\0\0\0\0\0\0\0\0\0\0\0\0\0\0\0\0\0\0\0",
        // above Z
        b"[A\0\0\0\0\0\0\0\0\0\0\0\0\0\0\0\0\0\0\0\0\0\0",
    ];
    all_read_as(&rt, &names, MALFORMED)
}

#[test]
fn later_bytes(rt: HostRuntime) -> Result<(), Fail> {
    let names = [
        // lower case behind
        b"Pp\0\0\0\0\0\0\0\0\0\0\0\0\0\0\0\0\0\0\0\0\0\0",
        // below A, behind
        b"A@\0\0\0\0\0\0\0\0\0\0\0\0\0\0\0\0\0\0\0\0\0\0",
        // above Z, behind
        b"A[\0\0\0\0\0\0\0\0\0\0\0\0\0\0\0\0\0\0\0\0\0\0",
        // below 0
        b"A/\0\0\0\0\0\0\0\0\0\0\0\0\0\0\0\0\0\0\0\0\0\0",
        // above 9
        b"A:\0\0\0\0\0\0\0\0\0\0\0\0\0\0\0\0\0\0\0\0\0\0",
        // below the hyphen
        b"A,\0\0\0\0\0\0\0\0\0\0\0\0\0\0\0\0\0\0\0\0\0\0",
        // above the hyphen
        b"A.\0\0\0\0\0\0\0\0\0\0\0\0\0\0\0\0\0\0\0\0\0\0",
        // a space
        b"A B\0\0\0\0\0\0\0\0\0\0\0\0\0\0\0\0\0\0\0\0\0",
        // the last byte of a full field
        b"AAAAAAAAAAAAAAAAAAAAAAAa",
        // 255
        b"A\xff\0\0\0\0\0\0\0\0\0\0\0\0\0\0\0\0\0\0\0\0\0\0",
    ];
    all_read_as(&rt, &names, MALFORMED)
}

#[test]
fn fill(rt: HostRuntime) -> Result<(), Fail> {
    let names = [
        // a zero byte in the middle
        b"PP\0BLACK\0\0\0\0\0\0\0\0\0\0\0\0\0\0\0\0",
        // a byte behind the fill
        b"A\0\0\0\0\0\0\0\0\0\0\0\0\0\0\0\0\0\0\0\0\0\0\x01",
        // a letter at the end of the fill
        b"A\0\0\0\0\0\0\0\0\0\0\0\0\0\0\0\0\0\0\0\0\0\0A",
    ];
    all_read_as(&rt, &names, MALFORMED)
}

// A WIRE whose name is refused stands behind another WIRE, at position 25.
#[test]
fn position(rt: HostRuntime) -> Result<(), Fail> {
    assert_eq!(rt;
        outcome(
            &rt,
            b"\x01A\0\0\0\0\0\0\0\0\0\0\0\0\0\0\0\0\0\0\0\0\0\0\0\x01a\0\0\0\0\0\0\0\0\0\0\0\0\0\0\0\0\0\0\0\0\0\0\0\x08",
        ),
        Err((5, 25))
    );
    Ok(())
}
