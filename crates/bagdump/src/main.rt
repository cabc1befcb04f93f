// Reads a page from standard input and prints its stacks, or why it is no bag.
#![tactic(auto)]

use listing::dump;
use std::io::{Read, Write};

// The most bytes that are read: the largest sector of any module. The program stands on no sheet, so the number is written here.
const INPUT_LIMIT: u64 = 536;

fn main(rt: HostRuntime) -> anyhow::Result<()> {
    let mut bytes = Vec::new(rt.alloc());
    rt.stdin().take(INPUT_LIMIT).read_to_end(&mut bytes)?;
    let lines = dump(rt.alloc(), &bytes)?;
    rt.stdout().write_all(&lines)?;
    Ok(())
}
