// Reading: each refusal at its position, at every boundary of the operands.
use format::recipe::read_commands;
use format::{Command, Commands, Reader, RecipeError};
use std::process::Abort;
use std::test::*;

// A refusal by its number and its position. The number, and not the case: it is what people know, and the tests are
// to show it.
pub(crate) fn numbered(error: RecipeError) -> (u8, usize) {
    (error.refusal.number(), error.position)
}

// What reading a whole recipe answers: how many commands it has, or the refusal's number and position.
pub(crate) fn outcome(rt: &impl AllocGlobal, recipe: &[u8]) -> Result<usize, (u8, usize)> {
    read_commands(rt.alloc(), recipe)
        .map(|commands| commands.len())
        .map_err(numbered)
}

#[test]
fn nothing_is_refused_with_1(rt: HostRuntime) -> Result<(), Fail> {
    assert_eq!(rt; outcome(&rt, b""), Err((1, 0)));
    Ok(())
}

#[test]
fn end_alone_is_a_recipe(rt: HostRuntime) -> Result<(), Fail> {
    assert_eq!(rt; outcome(&rt, b"\x08"), Ok(1));
    Ok(())
}

#[test]
fn a_byte_behind_end_is_refused_at_end(rt: HostRuntime) -> Result<(), Fail> {
    assert_eq!(rt; outcome(&rt, b"\x08\x00"), Err((21, 0)));
    assert_eq!(rt; outcome(&rt, b"\x08\x08"), Err((21, 0)));
    assert_eq!(rt; outcome(&rt, b"\x04\x04\x08\x09"), Err((21, 2)));
    Ok(())
}

// The first byte alone: PAR is a whole command and END a whole recipe, the other six lack operands, and no other byte
// begins a command.
#[test]
fn every_first_byte(rt: HostRuntime) -> Result<(), Fail> {
    for byte in 0..=255u8 {
        let expected = match byte {
            1 | 2 | 3 | 5 | 6 | 7 => Err((3, 0)),
            4 => Err((1, 1)),
            8 => Ok(1),
            _ => Err((2, 0)),
        };
        assert_eq!(rt; outcome(&rt, &[byte]), expected);
    }
    Ok(())
}

// A command of `length` bytes: cut short at every place, whole with nothing behind it, and whole with END behind it.
fn boundaries(rt: &(impl Abort + AllocGlobal), recipe: &[u8], length: usize) -> Result<(), Fail> {
    assert!(rt; length > 0 && length < recipe.len());
    for cut in 1..length {
        assert_eq!(rt; outcome(rt, &recipe[0..cut]), Err((3, 0)));
    }
    assert_eq!(rt; outcome(rt, &recipe[0..length]), Err((1, length)));
    assert_eq!(rt; outcome(rt, recipe), Ok(2));
    Ok(())
}

#[test]
fn operands_must_all_be_there(rt: HostRuntime) -> Result<(), Fail> {
    boundaries(
        &rt,
        b"\x01A\0\0\0\0\0\0\0\0\0\0\0\0\0\0\0\0\0\0\0\0\0\0\0\x08",
        25,
    )?;
    boundaries(&rt, b"\x02\x01\x08", 2)?;
    boundaries(
        &rt,
        b"\x03\0\0\0\0\0\0\0\0\0\0\0\0\0\0\0\0\0\0\0\0\0\0\0\0\0\0\x08",
        27,
    )?;
    boundaries(&rt, b"\x05\0\0\0\0\0\0\0\x01\x08", 9)?;
    boundaries(&rt, b"\x06\x00\x08", 2)?;
    boundaries(&rt, b"\x07\x00\x08", 2)
}

// Behind PAR (1 byte), MACHINE (2) and HIDE (9) the next command begins at position 12.
#[test]
fn a_refusal_names_the_first_byte_of_its_command(rt: HostRuntime) -> Result<(), Fail> {
    assert_eq!(rt;
        outcome(&rt, b"\x04\x02\x07\x05\0\0\0\0\0\0\0\x03"),
        Err((1, 12))
    );
    assert_eq!(rt;
        outcome(&rt, b"\x04\x02\x07\x05\0\0\0\0\0\0\0\x03\x00\x08"),
        Err((2, 12))
    );
    assert_eq!(rt;
        outcome(&rt, b"\x04\x02\x07\x05\0\0\0\0\0\0\0\x03\x03\x00"),
        Err((3, 12))
    );
    assert_eq!(rt;
        outcome(&rt, b"\x04\x02\x07\x05\0\0\0\0\0\0\0\x03\x08\x00"),
        Err((21, 12))
    );
    Ok(())
}

#[test]
fn a_rule_has_its_fields_in_order(rt: HostRuntime) -> Result<(), Fail> {
    let recipe =
        b"\x03\x01\x02\x11\x12\x13\x14\x15\x16\x17\x18\x21\x22\x23\x24\x25\x26\x27\x28\x31\x32\x33\x34\x35\x36\x37\x38";
    let mut reader = Reader::new(recipe);
    let Command::Rule(rule) = reader.read()? else {
        return Err(Fail::new("no rule"));
    };
    assert_eq!(rt; rule.from, 1);
    assert_eq!(rt; rule.to, 2);
    assert_eq!(rt; rule.present.bits, 0x1112_1314_1516_1718);
    assert_eq!(rt; rule.absent.bits, 0x2122_2324_2526_2728);
    assert_eq!(rt; rule.emits.bits, 0x3132_3334_3536_3738);
    Ok(())
}

#[test]
fn each_command_has_its_operands(rt: HostRuntime) -> Result<(), Fail> {
    let mut reader = Reader::new(b"\x02\x10\x04\x05\x80\0\0\0\0\0\0\x01\x06\x3f\x07\x05\x08");
    assert_eq!(rt; reader.read()?, Command::Machine { states: 16 });
    assert_eq!(rt; reader.read()?, Command::Par);
    let Command::Hide { hidden } = reader.read()? else {
        return Err(Fail::new("no HIDE"));
    };
    assert!(rt; hidden.contains(63) && hidden.contains(0) && !hidden.contains(7));
    assert_eq!(rt; reader.read()?, Command::Unless { wire: 63 });
    assert_eq!(rt; reader.read()?, Command::Refine { stage: 5 });
    assert_eq!(rt; reader.position(), 16);
    assert_eq!(rt; reader.read()?, Command::End);
    Ok(())
}

// What a read answers if it is refused, by number and position.
fn refusal(reader: &mut Reader<'_>) -> Option<(u8, usize)> {
    reader.read().err().map(numbered)
}

#[test]
fn a_refusal_leaves_the_reader_where_it_is(rt: HostRuntime) -> Result<(), Fail> {
    let mut reader = Reader::new(b"\x04\x09\x08");
    assert_eq!(rt; reader.read()?, Command::Par);
    assert_eq!(rt; refusal(&mut reader), Some((2, 1)));
    assert_eq!(rt; reader.position(), 1);
    assert_eq!(rt; refusal(&mut reader), Some((2, 1)));
    Ok(())
}

#[test]
fn behind_end_no_byte_is_left(rt: HostRuntime) -> Result<(), Fail> {
    let mut reader = Reader::new(b"\x04\x08");
    assert_eq!(rt; reader.read()?, Command::Par);
    assert_eq!(rt; reader.read()?, Command::End);
    assert_eq!(rt; refusal(&mut reader), Some((1, 2)));
    assert_eq!(rt; refusal(&mut reader), Some((1, 2)));
    Ok(())
}

// How many commands are given, and the refusal behind them.
fn given(recipe: &[u8]) -> (usize, Option<(u8, usize)>) {
    let mut count = 0usize;
    for command in Commands::new(recipe) {
        match command {
            Ok(_) => count = count.saturating_add(1),
            Err(error) => return (count, Some(numbered(error))),
        }
    }
    (count, None)
}

#[test]
fn commands_one_by_one(rt: HostRuntime) {
    assert_eq!(rt; given(b"\x04\x02\x01\x08"), (3, None));
    assert_eq!(rt; given(b"\x04\x04\x09\x08"), (2, Some((2, 2))));
    assert_eq!(rt; given(b""), (0, Some((1, 0))));
    // it ends with its refusal
    let mut commands = Commands::new(b"\x04\x00");
    assert!(rt; matches!(commands.next(), Some(Ok(Command::Par))));
    assert!(rt; matches!(commands.next(), Some(Err(_))));
    assert!(rt; commands.next().is_none());
}
