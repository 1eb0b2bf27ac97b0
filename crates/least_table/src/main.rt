// Prints the table of least crews, which is crates/least_crews/src/table.rt: each entry found by search, among all
// crews with bytes for n and D, by what `crew::is_accepted` answers. It knows no formula and nothing of crate
// least_crews. Its output is compared with the file stdout beside this folder, and the gate holds table.rt to that
// file. Where other crews are accepted, make both anew: put what `rt run` prints in this folder into both.
#![tactic(auto)]

use crew::Crew;
use std::{fmt, io};

// How many values b and f have in the table, from 0 on.
const B_VALUES: u8 = 11;

const F_VALUES: u8 = 16;

// No crew has 0 nodes, and none decides on 0 votes. So 0 is what stands where nothing is found.
const NONE: u8 = 0;

// Of which crews an entry tells: those of a class in which b nodes may lie and f be out of reach.
#[derive(Clone, Copy, PartialEq, Eq, Debug)]
struct Entry {
    class: u8,
    b: u8,
    f: u8,
}

impl fmt::Display for Entry {
    fn fmt<W: fmt::Write>(&self, f: &mut fmt::Formatter<W>) -> fmt::Result {
        write!(f, "class {}, b {}, f {}", self.class, self.b, self.f)
    }
}

impl Entry {
    // Whether a crew of n nodes of which D decide is accepted. All nodes are its group: then c turns no crew away.
    fn fits(self, n: u8, d: u8) -> bool {
        crew::is_accepted(Crew {
            class: self.class,
            n,
            b: self.b,
            f: self.f,
            d,
            c: n,
        })
    }

    // The least D that lets n nodes be accepted.
    fn least_d(self, n: u8) -> Option<u8> {
        (0..=u8::MAX).find(|&d| self.fits(n, d))
    }

    // The least n that any D lets be accepted, and the least D for that n.
    fn least(self) -> Option<(u8, u8)> {
        (0..=u8::MAX).find_map(|n| self.least_d(n).map(|d| (n, d)))
    }

    // The lines of the entry's two numbers, and behind each what it is.
    fn print(self, rt: &impl Print) -> io::Result<()> {
        let (n, d) = self.least().unwrap_or((NONE, NONE));
        println!(rt; "    {n}, // n: {self}")?;
        println!(rt; "    {d}, // D: {self}")
    }
}

// All entries of a class, by b and then by f.
fn print_class(rt: &impl Print, class: u8) -> io::Result<()> {
    for b in 0..B_VALUES {
        for f in 0..F_VALUES {
            Entry { class, b, f }.print(rt)?;
        }
    }
    Ok(())
}

fn main(rt: HostRuntime) -> io::Result<()> {
    println!(rt;
        "// The least crews: class by class, in a class by b, then by f. Of each entry n,"
    )?;
    println!(rt; "// and behind it D; both are 0 where no n is accepted. The program of crate")?;
    println!(rt; "// least_table finds them by search and prints this file.")?;
    println!(rt; "pub const LEAST: [u8; 1056] = [")?;
    for class in Crew::CLASS_ONE..=Crew::CLASS_THREE {
        print_class(&rt, class)?;
    }
    println!(rt; "];")
}
