// Packs commands and takes replies apart: answers the line that its arguments make, or else each line of standard input.
#![tactic(auto)]

use pcframe_lines::answer;
use std::env;
use std::io::{BufRead, BufReader};

// The arguments as one line, with a blank between each two.
fn line_of_arguments(rt: &HostRuntime) -> anyhow::Result<String> {
    let mut line = String::new(rt.alloc());
    for word in env::args(rt)?.skip(1) {
        if !line.is_empty() {
            line.push(' ')?;
        }
        line.push_str(word.as_str())?;
    }
    Ok(line)
}

fn main(rt: HostRuntime) -> anyhow::Result<()> {
    let heap = rt.alloc();
    let line = line_of_arguments(&rt)?;
    if !line.is_empty() {
        rt.println(answer(heap, line.as_bytes())?)?;
        return Ok(());
    }
    for line in BufReader::new(heap, rt.stdin())?.split(heap, b'\n') {
        rt.println(answer(heap, &line?)?)?;
    }
    Ok(())
}
