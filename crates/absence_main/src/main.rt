// Absence over the last hundred runs, as a program: records of finished runs on standard input, after each the counts
// of absences on standard output. It keeps a part of the input and its lines, whatever the input's length. The command
// ./absence runs it; docs/SERVICE.md says how to read what it prints.
#![tactic(auto)]

use absence::{PART_SIZE, ROOM, Stream};
use std::io;

// The loop ends by what the library says is left: nothing behind the last record, be it the input's or the millionth.
// Once a write has failed, nothing more is read.
fn main(rt: HostRuntime) -> io::Result<()> {
    let mut stream = Stream::start();
    let mut part = [0u8; PART_SIZE];
    let mut lines = [0u8; ROOM];
    while 0 < stream.left {
        let size = intake::read_front(&mut rt.stdin(), &mut part)?;
        let laid = stream.step(&part[..size], &mut lines);
        if rt.write_all(&lines[..laid]).is_err() {
            break;
        }
    }
    Ok(())
}
