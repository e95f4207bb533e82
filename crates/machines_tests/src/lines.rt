// The lines of ticks and calls, as texts and as they print themselves.
use crate::example::{A, B, NONE};
use parts::{Fault, Reply};
use printing::{ReplyLine, refused_line, reply_line, tick_line};
use signals::WireSet;
use std::test::*;

const FAULT: Fault = Fault {
    cause: 42,
    place: 3,
    count: 2,
};

#[test]
fn ticks(rt: HostRuntime) -> Result<(), Fail> {
    assert_eq!(rt; tick_line(rt.alloc(), 1, NONE)?.as_str(), "1 -\n");
    assert_eq!(rt; tick_line(rt.alloc(), 2, A.union(B))?.as_str(), "2 0 1\n");
    let last = WireSet { bits: 1 << 63 };
    assert_eq!(rt; tick_line(rt.alloc(), 30, last)?.as_str(), "30 63\n");
    assert_eq!(rt;
        refused_line(rt.alloc(), 4, FAULT)?.as_str(),
        "4 fault 42 3 2\n"
    );
    Ok(())
}

#[test]
fn calls(rt: HostRuntime) -> Result<(), Fail> {
    assert_eq!(rt;
        reply_line(rt.alloc(), 7, Reply::Restarted)?.as_str(),
        "7 restarted\n"
    );
    assert_eq!(rt;
        reply_line(rt.alloc(), 8, Reply::Answer(Ok(B)))?.as_str(),
        "8 1\n"
    );
    let refused = ReplyLine {
        number: 9,
        reply: Reply::Answer(Err(FAULT)),
    };
    let text = format!(in rt.alloc(); "{refused}")?;
    assert_eq!(rt; text.as_str(), "9 fault 42 3 2\n");
    Ok(())
}
