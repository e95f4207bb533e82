// Prints the wire list of the recipe in line.rcp: how many wires it declares, and a line for each.
#![tactic(auto)]

use format::recipe::MAX_RECIPE;
use reports::wires::wire_list;
use std::fs::File;
use std::io;
use std::io::{ErrorKind, Read};
use std::rt::Files;

// The bytes of a file, as many of them as tell whether there are too many; none where there is no file.
fn read_or_empty(rt: &(impl Files + AllocGlobal), path: &str) -> io::Result<Vec<u8>> {
    let mut bytes = Vec::new(rt.alloc());
    match File::open(rt, path) {
        Ok(file) => {
            file.take(MAX_RECIPE as u64 + 1).read_to_end(&mut bytes)?;
            Ok(bytes)
        }
        Err(error) if error.kind() == ErrorKind::NotFound => Ok(bytes),
        Err(error) => Err(error),
    }
}

fn main(rt: HostRuntime) -> anyhow::Result<()> {
    let recipe = read_or_empty(&rt, "line.rcp")?;
    rt.print(wire_list(rt.alloc(), &recipe)?)?;
    Ok(())
}
