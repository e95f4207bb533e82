// The wire list, whole.
use reports::wires::wire_list;
use std::process::Abort;
use std::test::*;

fn listed(rt: &(impl Abort + AllocGlobal), recipe: &[u8], expected: &str) -> Result<(), Fail> {
    let text = wire_list(rt.alloc(), recipe)?;
    assert_eq!(rt; text.as_str(), expected);
    Ok(())
}

// The names agree in their first eight bytes, and are two.
#[test]
fn two_grades_are_two_wires(rt: HostRuntime) -> Result<(), Fail> {
    listed(
        &rt,
        b"\x01PP-BLACK\0\0\0\0\0\0\0\0\0\0\0\0\0\0\0\0\x02\x01\x01PP-BLACK-T20\0\0\0\0\0\0\0\0\0\0\0\0\x08",
        "wires 2\n0 PP-BLACK\n1 PP-BLACK-T20\n",
    )
}

#[test]
fn no_wires(rt: HostRuntime) -> Result<(), Fail> {
    listed(&rt, b"\x08", "wires 0\n")
}

#[test]
fn refusals(rt: HostRuntime) -> Result<(), Fail> {
    listed(&rt, b"", "load 1 0\n")?;
    listed(&rt, b"\x04\x09", "load 2 1\n")?;
    listed(&rt, b"\x04\x04\x02", "load 3 2\n")?;
    listed(
        &rt,
        b"\x01PP_BLACK\0\0\0\0\0\0\0\0\0\0\0\0\0\0\0\0\x08",
        "load 5 0\n",
    )?;
    listed(&rt, b"\x02\x01\x08\x08", "load 21 2\n")
}

// 16,384 bytes are read, of which PAR is one each; one more is too long.
#[test]
fn the_longest_recipe(rt: HostRuntime) -> Result<(), Fail> {
    let longest = vec![in rt.alloc(); 4u8; 16_384]?;
    listed(&rt, longest.as_slice(), "load 1 16384\n")?;
    let longer = vec![in rt.alloc(); 4u8; 16_385]?;
    listed(&rt, longer.as_slice(), "load 22 0\n")
}
