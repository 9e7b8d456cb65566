// Shows what failing power leaves of a write. Each line of standard input names a memory, a supply and a block; the block is tried on
// one built target of each mode, and a line for each says whether it answered, whether it was awake, and what it then holds.
#![tactic(auto)]

use attempts::{attempt, look};
use bank::Bank;
use built::{atmblb, atmsk, sic2, silblb};
use pair::Pair;
use powerfail_lines::{Outcome, Request, parse};
use std::io::{BufRead, BufReader};

// Tries the block on each channel, and prints what came of it. By number, since a bank lends no list of channels. Where the memory has no such
// range it holds nothing to show.
fn try_all<B: Bank>(rt: &HostRuntime, bank: &mut B, request: &Request) -> anyhow::Result<()> {
    let block = &request.block;
    let units = u32::from(request.units);
    for channel in 0..bank.count() {
        let answered = attempt(bank, channel, request.space, 0, block, units).is_ok();
        let awake = bank.alive(channel) == Some(true);
        let mut bytes = vec![in rt.alloc(); 0; block.len()]?;
        let there = look(bank, channel, request.space, 0, &mut bytes);
        let held = there.ok().map(|()| bytes.as_slice());
        rt.println(Outcome {
            channel,
            answered,
            awake,
            held,
        })?;
    }
    Ok(())
}

// Answers each line of standard input.
fn serve<B: Bank>(rt: &HostRuntime, bank: &mut B) -> anyhow::Result<()> {
    let heap = rt.alloc();
    for line in BufReader::new(heap, rt.stdin())?.split(heap, b'\n') {
        match parse(heap, &line?)? {
            Some(request) => try_all(rt, bank, &request)?,
            None => rt.println("?")?,
        }
    }
    Ok(())
}

fn main(rt: HostRuntime) -> anyhow::Result<()> {
    let clearing = Pair {
        first: sic2(),
        second: silblb(),
    };
    let replacing = Pair {
        first: atmblb(),
        second: atmsk(),
    };
    serve(
        &rt,
        &mut Pair {
            first: clearing,
            second: replacing,
        },
    )
}
