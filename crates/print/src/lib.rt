// The lines that a drill prints, each laid at the front of a lent buffer; each public function answers its line's size.
// What would lie beyond the buffer's end is left out, so a caller lends MOST_LINE bytes: no line is longer.
// specs/Texts.antt has the texts, and how long they can be.
// A buffer and the place to go on at travel together here. They are no struct that holds the `&mut`, as each contract
// would then say besides that the struct lends the same buffer still. Numbers are printed digit by digit and not by the
// library's `write!`: its writers refuse a buffer that is too short, where here all that fits stands (`Laid`).
#![tactic(auto)]

ghost use Rattle.std.specs.Prelude.{◌≡◌, ◌+◌, ◌*◌, ◌≤◌, length, set};
ghost use Rattle.crew.specs.Parts.{most_nodes};
ghost use Rattle.print.specs.Texts.{
  WroteWithin,
  Laid,
  place_of,
  decimal_of,
  decimal_most,
  field_of,
  field_most,
  fields_from,
  result_line,
  line_most,
  bad_line,
  end_line,
  long_line,
  nodes_shown,
};

use crew::MOST_NODES;
use script::{NEWLINE, SPACE};
use wire::Plan;

const DASH: u8 = b'-';

const ZERO: u8 = b'0';

// No number that is printed has more digits.
const MOST_DIGITS: usize = 5;
// A space and a node's result.
const MOST_FIELD: usize = 1 + MOST_DIGITS;
// The longest line is one after a go: the phase, a space, the round, a result for each node, and the line's end.
pub const MOST_LINE: usize = MOST_DIGITS + 1 + MOST_DIGITS + MOST_FIELD * MOST_NODES + 1;

// One byte at a place.
fn put(buf: &mut [u8], at: usize, byte: u8)
    ensures { buf.new ≡ set buf.old at byte }
{
    if at < buf.len() {
        buf[at] = byte;
    }
}

// A text at the front.
fn put_text(buf: &mut [u8], text: &[u8]) -> usize
    ensures { WroteWithin (length text.now) buf.old 0 text.now buf.new result }
{
    for (at, &byte) in text.iter().enumerate() {
        put(buf, at, byte);
    }
    text.len()
}

// The digit of the worth p, where the number is that large.
fn put_place(buf: &mut [u8], at: usize, v: u32, p: u32) -> usize
    requires { (at ≤ line_most + decimal_most) × (1 ≤ p) }
    ensures { WroteWithin 1 buf.old at (place_of v p) buf.new result }
{
    if p <= v {
        put(buf, at, ZERO + (v / p % 10) as u8);
        at + 1
    } else {
        at
    }
}

// The digits of a number below 100,000.
fn put_number(buf: &mut [u8], at: usize, v: u32) -> usize
    requires { at ≤ line_most }
    ensures { WroteWithin decimal_most buf.old at (decimal_of v) buf.new result }
{
    let a = put_place(buf, at, v, 10000);
    let b = put_place(buf, a, v, 1000);
    let c = put_place(buf, b, v, 100);
    let d = put_place(buf, c, v, 10);
    put(buf, d, ZERO + (v % 10) as u8);
    d + 1
}

// A space, and a node's result, or a dash.
fn put_field(buf: &mut [u8], at: usize, honest: bool, plan: Plan) -> usize
    requires { at + field_most ≤ line_most }
    ensures { WroteWithin field_most buf.old at (field_of honest plan) buf.new result }
{
    put(buf, at, SPACE);
    let b = at + 1;
    if honest {
        put_number(buf, b, u32::from(plan))
    } else {
        put(buf, b, DASH);
        b + 1
    }
}

// The results of n nodes.
fn put_fields(
    buf: &mut [u8],
    start: usize,
    n: usize,
    results: &[Plan; MOST_NODES],
    honest: &[bool; MOST_NODES],
) -> usize
    requires { (start + field_most * most_nodes ≤ line_most) × (n ≤ most_nodes) }
    ensures { WroteWithin (field_most * most_nodes) buf.old start
        (fields_from results.now honest.now 0 n) buf.new result }
{
    let mut at = start;
    for i in 0..n {
        at = put_field(buf, at, honest[i], results[i]);
    }
    at
}

// The line after a go: the phase and the round that it did, and the results of n nodes. It has room for MOST_NODES, and
// no crew has more. The results stand apart from who is honest, as they do in crate aisle: the one changes, the other
// does not. Phase and round are two numbers, as the drill's moment has them beside much that is not printed.
pub fn result_line(
    buf: &mut [u8],
    phase: u8,
    round: u8,
    n: usize,
    results: [Plan; MOST_NODES],
    honest: [bool; MOST_NODES],
) -> usize
    ensures { Laid buf.old (result_line phase round (nodes_shown n) results honest)
        buf.new result }
{
    let shown = n.min(MOST_NODES);
    let a = put_number(buf, 0, u32::from(phase));
    put(buf, a, SPACE);
    let b = put_number(buf, a + 1, u32::from(round));
    let c = put_fields(buf, b, shown, &results, &honest);
    put(buf, c, NEWLINE);
    c + 1
}

// `bad L`. Of a number above 99,999 the last five digits are shown; no script has so many lines.
pub fn bad_line(buf: &mut [u8], line: u32) -> usize
    ensures { Laid buf.old (bad_line line) buf.new result }
{
    let a = put_text(buf, b"bad ");
    let b = put_number(buf, a, line);
    put(buf, b, NEWLINE);
    b + 1
}

// `end`
pub fn end_line(buf: &mut [u8]) -> usize
    ensures { Laid buf.old end_line buf.new result }
{
    put_text(buf, b"end\n")
}

// `long`
pub fn long_line(buf: &mut [u8]) -> usize
    ensures { Laid buf.old long_line buf.new result }
{
    put_text(buf, b"long\n")
}
