// The drill as a program: a script on standard input, its output on standard output, a line at a time.
#![tactic(auto)]

use std::io;

fn main(rt: HostRuntime) -> io::Result<()> {
    let mut input = [0u8; drill::MOST_READ];
    let size = intake::read_front(&mut rt.stdin(), &mut input)?;
    console::run(&rt, &input[..size]);
    Ok(())
}
