// Answers a planner's question in one line: the least crew of the class, b and f that are its three arguments. The
// command ./least runs it. For what is outside the table a line goes to standard error, and none to standard output.
#![tactic(auto)]

use crew::{Crew, MOST_NODES};
use least_crews::{Least, MOST_B, MOST_F};
use std::rt::Env;
use std::{fmt, io};

// The arguments, by their places; the program's own name is at 0.
const CLASS: usize = 1;

const B: usize = 2;

const F: usize = 3;

// No number of one byte has more digits.
const MOST_DIGITS: usize = 3;

// What is asked for: the least crew of a class in which b nodes may lie and f be out of reach. The program of crate
// least_table has its like, as it knows nothing of crate least_crews, which is held to what it finds.
#[derive(Clone, Copy, PartialEq, Eq, Debug)]
struct Question {
    class: u8,
    b: u8,
    f: u8,
}

impl fmt::Display for Question {
    fn fmt<W: fmt::Write>(&self, f: &mut fmt::Formatter<W>) -> fmt::Result {
        write!(f, "class {}, b {}, f {}", self.class, self.b, self.f)
    }
}

// An argument that is a number of one byte. What is none is outside of every range.
fn argument(rt: &impl Env, i: usize) -> Option<u8> {
    let mut text = [0u8; MOST_DIGITS];
    let length = rt.arg(i, &mut text).ok()?;
    let number = script::decimal(&text[..length], u32::from(u8::MAX))?;
    u8::try_from(number).ok()
}

fn read_question(rt: &impl Env) -> Option<Question> {
    let class = argument(rt, CLASS)?;
    let b = argument(rt, B)?;
    let f = argument(rt, F)?;
    Some(Question { class, b, f })
}

// The end of the line: the entry's two numbers, or why there are none.
fn show_entry(rt: &impl Print, least: Least) -> io::Result<()> {
    if 0 < least.n {
        println!(rt; "n {}, D {}", least.n, least.d)
    } else {
        println!(rt; "none, as n would pass {MOST_NODES}")
    }
}

// What lies outside of the ranges is no crew's (accepted_in_range in least_crews/proofs/Ranges.antt).
fn refuse(rt: &impl Eprint) -> io::Result<()> {
    let classes = Crew::CLASS_THREE;
    eprint!(rt; "least: class is 1 to {classes}, b 0 to {MOST_B}, f 0 to {MOST_F}")?;
    eprintln!(rt; ", without leading zeros; no crew is accepted with others")
}

fn answer(rt: &(impl Print + Eprint), asked: Question) -> io::Result<()> {
    let Ok(least) = least_crews::lookup(asked.class, asked.b, asked.f) else {
        return refuse(rt);
    };
    print!(rt; "{asked}: ")?;
    show_entry(rt, least)
}

fn main(rt: HostRuntime) -> io::Result<()> {
    match read_question(&rt) {
        Some(asked) => answer(&rt, asked),
        None => refuse(&rt),
    }
}
