// A drill's script, line by line: where a line ends, its decimal fields, and what it asks for.
// Each function is what a definition says: specs/Lines.antt, specs/Fields.antt and specs/Commands.antt.
#![tactic(auto)]

ghost use Rattle.std.specs.Prelude.{◌≡◌, ◌+◌, drop};
ghost use Rattle.script.specs.Lines.{until};
ghost use Rattle.script.specs.Fields.{digit_of, byte_of, number_of, numbers_on};
ghost use Rattle.script.specs.Commands.{crew_on, crew_line_of, plans_of, cut_on, say_on, line_of};

use crew::{Crew, MOST_NODES};
use wire::{PLAN_SIZE, Plan};

// Ends each line.
pub const NEWLINE: u8 = b'\n';
// Parts the fields of a line.
pub const SPACE: u8 = b' ';

const ZERO: u8 = b'0';
// The largest plan, all bits of its bytes set. No number of a script is larger: every other bound is lower.
const LARGEST: u32 = (1 << (8 * PLAN_SIZE)) - 1;
// Line 1 has the crew's: class n b f D c.
const CREW_FIELDS: usize = 6;
// A cut has its sender and its receiver.
const CUT_FIELDS: usize = 2;
// A say has its plan and its stamp besides.
const SAY_FIELDS: usize = 4;
// No line has more numbers: line 2 has one for each node.
const MOST_NUMBERS: usize = MOST_NODES;

// A number of a line. It has a plan's type: none is larger than the largest plan.
pub type Field = Plan;

// The numbers of a line, in the order in which they stand there. A count beside a buffer, since there is no heap.
#[derive(Clone, Copy, PartialEq, Eq, Debug)]
pub struct Numbers {
    pub count: usize,
    pub values: [Field; MOST_NUMBERS],
}

// A cut or a say: it waits for the next go. A node's number and a stamp are one byte each: no larger one is allowed.
#[derive(Clone, Copy, PartialEq, Eq, Debug)]
pub enum Note {
    Cut {
        sender: u8,
        receiver: u8,
    },
    Say {
        sender: u8,
        receiver: u8,
        plan: Plan,
        stamp: u8,
    },
}

// What a line from the third on asks for.
#[derive(Clone, Copy, PartialEq, Eq, Debug)]
pub enum Command {
    Note(Note),
    Go,
}

// The first place from a start on that holds the byte, or where the slice ends; the start itself where it lies beyond.
// A place and no Option: there always is one. As `iter().skip(from).position(..)` its value was not proved.
pub fn find(s: &[u8], byte: u8, from: usize) -> usize
    ensures { result ≡ from + until byte (drop from s.now) }
{
    for i in from..s.len() {
        if s[i] == byte {
            return i;
        }
    }
    from.max(s.len())
}

// A digit's value. Not `parse`: a field has a bound that the reader names, and no leading zeros.
fn digit(c: u8) -> Option<u64>
    ensures { result ≡ digit_of c }
{
    match c {
        b'0'..=b'9' => Some(u64::from(c - ZERO)),
        _ => None,
    }
}

// A field's number, of at most `most`. It stops at the digit that takes it past that, so a field of any length is read
// safely.
pub fn decimal(s: &[u8], most: u32) -> Option<u32>
    ensures { result ≡ number_of most s.now }
{
    if s.is_empty() || (2 <= s.len() && s[0] == ZERO) {
        return None;
    }
    // Ten times the largest `most` needs more than 32 bits.
    let mut value: u64 = 0;
    for &byte in s {
        value = 10 * value + digit(byte)?;
        if u64::from(most) < value {
            return None;
        }
    }
    Some(value as u32)
}

// The fields of a slice as numbers.
fn numbers_on(s: &[u8]) -> Option<Numbers>
    ensures { result ≡ numbers_on s.now }
{
    let mut values = [0; MOST_NUMBERS];
    let mut count = 0;
    for field in s.split(|byte| *byte == SPACE) {
        let value = decimal(field, LARGEST)?;
        if MOST_NUMBERS <= count {
            return None;
        }
        values[count] = value as Field;
        count += 1;
    }
    Some(Numbers { count, values })
}

// A number of one byte.
fn byte(v: Field) -> Option<u8>
    ensures { result ≡ byte_of v }
{
    u8::try_from(v).ok()
}

// This and the next two take a line's numbers by their places; no `From`, as the numbers may be too many or too large.
fn to_crew(w: Numbers) -> Option<Crew>
    ensures { result ≡ crew_on w }
{
    if w.count != CREW_FIELDS {
        return None;
    }
    let v = w.values;
    Some(Crew {
        class: byte(v[0])?,
        n: byte(v[1])?,
        b: byte(v[2])?,
        f: byte(v[3])?,
        d: byte(v[4])?,
        c: byte(v[5])?,
    })
}

// Line 1: six numbers of one byte. Whether they are a crew that is accepted is not asked here.
pub fn crew_line(s: &[u8]) -> Option<Crew>
    ensures { result ≡ crew_line_of (numbers_on s.now) }
{
    to_crew(numbers_on(s)?)
}

// Line 2, for n nodes: the initial plan of each, 0 for one that is not honest.
pub fn plans_line(s: &[u8], n: usize) -> Option<[Plan; MOST_NODES]>
    ensures { result ≡ plans_of (numbers_on s.now) n }
{
    let w = numbers_on(s)?;
    if w.count == n { Some(w.values) } else { None }
}

fn to_cut(w: Numbers) -> Option<Command>
    ensures { result ≡ cut_on w }
{
    if w.count != CUT_FIELDS {
        return None;
    }
    let v = w.values;
    Some(Command::Note(Note::Cut {
        sender: byte(v[0])?,
        receiver: byte(v[1])?,
    }))
}

fn to_say(w: Numbers) -> Option<Command>
    ensures { result ≡ say_on w }
{
    if w.count != SAY_FIELDS {
        return None;
    }
    let v = w.values;
    Some(Command::Note(Note::Say {
        sender: byte(v[0])?,
        receiver: byte(v[1])?,
        plan: v[2],
        stamp: byte(v[3])?,
    }))
}

// A line from the third on, or none where it is badly written. Whether its numbers are within the bounds of the coming
// round is not asked here.
pub fn command_line(s: &[u8]) -> Option<Command>
    ensures { result ≡ line_of s.now }
{
    if let Some(fields) = s.strip_prefix(b"cut ") {
        return to_cut(numbers_on(fields)?);
    }
    if let Some(fields) = s.strip_prefix(b"say ") {
        return to_say(numbers_on(fields)?);
    }
    if s == b"go".as_slice() {
        return Some(Command::Go);
    }
    None
}
