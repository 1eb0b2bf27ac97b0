// Runs every stored script of the drill. The file args has their names; each script's output comes after a line with
// its name, and the check compares all of it with the file stdout. The scripts stand in data/, which is also the folder
// scripts of the repository. Two more are made here, for their length alone.
#![tactic(auto)]

ghost use Rattle.std.specs.Prelude.{◌≡◌, ◌+◌, length};
ghost use Rattle.drill.specs.Run.{most_bytes};

use drill::{MOST_BYTES, MOST_READ};
use std::rt::Files;
use std::{env, fs, io};

// The crew and the plans of the long script: as many bytes as three cuts, so that its last line is whole.
const HEAD: usize = 24;

const CUT: usize = 8;

// Runs the script in the file of this name.
fn run_named(rt: &(impl Files + Print + Eprint), name: &str) -> io::Result<()> {
    println!(rt; "{name}")?;
    let mut file = match fs::open(rt, name) {
        Ok(file) => file,
        Err(why) => return eprintln!(rt; "{name}: {why}"),
    };
    let mut script = [0u8; MOST_READ];
    let size = intake::read_front(&mut file, &mut script)?;
    console::run(rt, &script[..size]);
    Ok(())
}

// The long script has a crew, its plans, and nothing but cuts.
fn byte_of_long(i: usize) -> u8 {
    let head = b"1 4 0 1 3 4\n100 100 1 1\n";
    let cut = b"cut 1 2\n";
    if i < HEAD { head[i] } else { cut[i % CUT] }
}

fn long_script() -> [u8; MOST_READ]
    ensures { length result ≡ most_bytes + 1 }
{
    let mut script = [0u8; MOST_READ];
    for (i, byte) in script.iter_mut().enumerate() {
        *byte = byte_of_long(i);
    }
    script
}

// A script as long as one may be, and then with one byte more.
fn run_long(rt: &impl Print) -> io::Result<()> {
    let script = long_script();
    println!(rt; "65,536 bytes")?;
    console::run(rt, &script[..MOST_BYTES]);
    println!(rt; "65,537 bytes")?;
    console::run(rt, &script);
    Ok(())
}

// The first argument is the program's own name.
fn main(rt: HostRuntime) -> io::Result<()> {
    for name in env::args(&rt)?.skip(1) {
        run_named(&rt, name.as_str())?;
    }
    run_long(&rt)
}
