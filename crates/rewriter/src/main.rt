// Rewrites the recipe on standard input to standard output. A refusal is told on standard error, and ends the program
// with status 1.
#![tactic(auto)]

use reports::lines::load_line;
use std::io::{Read, Write};
use std::process::ExitCode;
use writing::rewrite::rewrite;

fn main(rt: HostRuntime) -> anyhow::Result<ExitCode> {
    let heap = rt.alloc();
    let mut recipe = Vec::new(heap);
    rt.stdin().read_to_end(&mut recipe)?;
    let mut out = vec![in heap; 0u8; recipe.len()]?;
    match rewrite(&recipe, &mut out) {
        Ok(length) => {
            rt.stdout().write_all(&out[..length])?;
            Ok(ExitCode::SUCCESS)
        }
        Err(error) => {
            rt.eprint(load_line(heap, error)?)?;
            Ok(ExitCode::FAILURE)
        }
    }
}
