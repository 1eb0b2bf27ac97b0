// Absence over finished runs. A record is a run's number and a mark for each node whose slot counted in the round that
// decided; a window holds the newest 100 records and, for each node, how many of them miss it. A port that is about to
// fail shows there as a count that rises. Then the program: records' bytes in, after each record a line of counts out.
// specs/Held.antt has 02's window, specs/Ring.antt how it is kept, specs/Lines.antt what is printed.
#![tactic(auto)]

ghost use Rattle.std.specs.Prelude.{◌≡◌, ◌+◌, ◌*◌, ◌≤◌, ◌<◌, length, get_or, ◌∷◌, []};
ghost use Rattle.wire.specs.Bytes.{number_at};
ghost use Rattle.wire.specs.Below.{table};
ghost use Rattle.wire.specs.Sizes.{run_size};
ghost use Rattle.print.specs.Texts.{WroteWithin, decimal_of};
ghost use Rattle.crew.specs.Parts.{most_nodes};
ghost use Rattle.absence.specs.Held.{misses};
ghost use Rattle.absence.specs.Ring.{
  empty_window,
  repeats_at,
  marks_leaving,
  recounted,
  count_values,
  AddedTo,
};
ghost use Rattle.absence.specs.Lines.{
  record_size,
  at_once,
  count_most,
  text_most,
  room_for,
  record_at,
  spaced,
  counts_line,
  count_text,
  last_node,
  taken_of,
  left_after,
  fresh_stream,
  SteppedOver,
};
ghost use Rattle.absence.specs.Promises.{
  LaidLines,
  counts_most,
  padded_text,
  TextSize,
  LaidPadded,
  Spilt,
};

use crew::MOST_NODES;
use script::{NEWLINE, SPACE};
use wire::RUN_SIZE;

// The window holds so many records.
pub const MOST_HELD: usize = 100;

// The marks of a record that misses nobody: 2^32 − 1.
const EVERY_MARK: u32 = u32::MAX;

// A count is a byte, and has so many values.
const COUNT_VALUES: usize = 256;

// 02's record: a run's number, and its marks as one number, node q's the bit of weight 2^q.
#[derive(Clone, Copy, PartialEq, Eq, Debug)]
pub struct Run {
    pub number: u32,
    pub marks: u32,
}

// What stands at a place that no record has come to.
const NO_RUN: Run = Run {
    number: 0,
    marks: 0,
};

#[derive(Clone, Copy, PartialEq, Eq, Debug)]
pub struct Window {
    // The places for records, a ring of fixed size: there is no heap. Behind the last place comes the first.
    pub runs: [Run; MOST_HELD],
    // Where the next record goes: in a full window, where the oldest stands.
    pub next: usize,
    pub held: usize,
    // For each node, how many of the records held miss it.
    pub missing: [u8; MOST_NODES],
}

// Why a record is not added; `add_number` in specs/Ring.antt has 02's number.
#[derive(Clone, Copy, PartialEq, Eq, Debug)]
pub enum AddRefusal {
    // It has the run number of the newest record held.
    SameRun,
}

// Whether node q is not marked.
fn misses(marks: u32, q: usize) -> bool
    requires { q < most_nodes }
    ensures { result ≡ misses q marks }
{
    (marks >> q) % 2 == 0
}

// Brings the counts up to date, for the marks of a record that comes and of one that goes. A count stays a byte
// whatever it was.
fn recount(missing: &mut [u8; MOST_NODES], comes: u32, goes: u32)
    ensures { missing.new ≡ recounted missing.old comes goes }
{
    for (q, count) in missing.iter_mut().enumerate() {
        *count = count
            .wrapping_add(u8::from(misses(comes, q)))
            .wrapping_sub(u8::from(misses(goes, q)));
    }
}

impl Window {
    pub fn empty() -> Window
        ensures { result ≡ empty_window }
    {
        Window {
            runs: [NO_RUN; MOST_HELD],
            next: 0,
            held: 0,
            missing: [0; MOST_NODES],
        }
    }

    // The record before the next place has this number, and there is one.
    fn is_repeat(&self, number: u32) -> bool
        ensures { result ≡ repeats_at self.now number }
    {
        let last = (self.next % MOST_HELD + (MOST_HELD - 1)) % MOST_HELD;
        1 <= self.held && self.runs[last].number == number
    }

    // The marks of the record that leaves. From a window that is not full none leaves; marks that miss nobody stand for
    // it.
    fn leaving(&self) -> u32
        ensures { result ≡ marks_leaving self.now }
    {
        if self.held < MOST_HELD {
            return EVERY_MARK;
        }
        self.runs[self.next % MOST_HELD].marks
    }

    // Adds a record in place, so that no window is copied for it; where the record is refused, the window stays.
    pub fn add(&mut self, run: Run) -> Result<(), AddRefusal>
        ensures { AddedTo self.old run self.new result }
    {
        if self.is_repeat(run.number) {
            return Err(AddRefusal::SameRun);
        }
        let leaving = self.leaving();
        recount(&mut self.missing, run.marks, leaving);
        let at = self.next % MOST_HELD;
        self.runs[at] = run;
        self.next = (at + 1) % MOST_HELD;
        self.held = self.held.min(MOST_HELD - 1) + 1;
        Ok(())
    }
}

// A record's bytes: its number, which is a run's, then its marks, as many again.
const RECORD_SIZE: usize = 2 * RUN_SIZE;

// A program reads so many records at a time, and needs 4,096 bytes for a part and no more than 65,536 for its lines.
const AT_ONCE: usize = 512;

pub const PART_SIZE: usize = AT_ONCE * RECORD_SIZE;

// A count has at most three digits, and a space or the line's end after it.
const MOST_TEXT: usize = 3 + 1;

// So many bytes have room for the lines of a whole part.
pub const ROOM: usize = AT_ONCE * MOST_TEXT * MOST_NODES;

const LAST_NODE: usize = MOST_NODES - 1;

const ZERO: u8 = b'0';

// A run of the program: its window, and how many records it still takes. None once the input has ended.
#[derive(Clone, Copy, PartialEq, Eq, Debug)]
pub struct Stream {
    pub window: Window,
    pub left: usize,
}

fn put_digit(text: &mut [u8], at: usize, digit: u8) -> usize
    requires { (at < length text.old) × (digit < 10) }
    ensures { WroteWithin 1 text.old at ((48 + digit) ∷ []) text.new result }
{
    text[at] = ZERO + digit;
    at + 1
}

// The digits of a count. Print's `put_number` is private to it: it asks for room in a line, as no public function may.
fn put_count(text: &mut [u8], at: usize, count: u8) -> usize
    requires { at + count_most ≤ length text.old }
    ensures { WroteWithin count_most text.old at (decimal_of count) text.new result }
{
    if count < 10 {
        return put_digit(text, at, count);
    }
    if count < 100 {
        let tens = put_digit(text, at, count / 10);
        return put_digit(text, tens, count % 10);
    }
    let hundreds = put_digit(text, at, count / 100);
    let tens = put_digit(text, hundreds, count / 10 % 10);
    put_digit(text, tens, count % 10)
}

// A count, and a byte after it.
fn put_text(text: &mut [u8], at: usize, count: u8, after: u8) -> usize
    requires { at + text_most ≤ length text.old }
    ensures { WroteWithin text_most text.old at (count_text count after) text.new result }
{
    let end = put_count(text, at, count);
    text[end] = after;
    end + 1
}

// The text of a count and a space after it, in as many bytes as the longest has: so all are laid alike, in one store.
fn padded_text(count: u8) -> [u8; MOST_TEXT]
    ensures { result ≡ padded_text count }
{
    let mut text = [0; MOST_TEXT];
    put_text(&mut text, 0, count, SPACE);
    text
}

// How many bytes the text has of a count and a space.
fn text_size(count: u8) -> usize
    ensures { TextSize count result }
{
    match count {
        0..=9 => 2,
        10..=99 => 3,
        _ => MOST_TEXT,
    }
}

// The texts of all counts. Worked out once for a part, they spare the digits of each count.
#[derive(Drop)]
struct Texts {
    of_count: [[u8; MOST_TEXT]; COUNT_VALUES],
    ghost filled: { of_count ≡ table padded_text count_values },
}

impl Texts {
    fn all() -> Texts {
        let mut texts = [[0; MOST_TEXT]; COUNT_VALUES];
        for (count, text) in texts.iter_mut().enumerate() {
            *text = padded_text(count as u8);
        }
        Texts { of_count: texts }
    }

    // A count and a space. What is laid beyond its text lies where the next text is laid.
    fn put_spaced_count(&self, lines: &mut [u8; ROOM], at: usize, count: u8) -> usize
        requires { at + text_most ≤ room_for }
        ensures { LaidPadded count lines.old at lines.new result }
    {
        lines[at..at + MOST_TEXT].copy_from_slice(&self.of_count[usize::from(count)]);
        at + text_size(count)
    }

    // The counts of all nodes but the last, with a space after each.
    fn put_spaced(&self, lines: &mut [u8; ROOM], start: usize, missing: &[u8; MOST_NODES]) -> usize
        requires { start + counts_most ≤ room_for }
        ensures { Spilt (text_most * last_node) lines.old start
            (spaced (λ q. get_or missing.now q 0) last_node) lines.new result }
    {
        let mut at = start;
        for count in &missing[..LAST_NODE] {
            at = self.put_spaced_count(lines, at, *count);
        }
        at
    }

    // The line of a window's counts. Nothing may be laid beyond it, so the last count goes digit by digit.
    fn put_line(&self, lines: &mut [u8; ROOM], start: usize, missing: &[u8; MOST_NODES]) -> usize
        requires { start + counts_most ≤ room_for }
        ensures { WroteWithin counts_most lines.old start
            (counts_line (λ q. get_or missing.now q 0)) lines.new result }
    {
        let at = self.put_spaced(lines, start, missing);
        put_text(lines, at, missing[LAST_NODE], NEWLINE)
    }
}

// The number in four bytes from a place on: here, as a public one in wire would test the place again.
fn number_at(part: &[u8], at: usize) -> u32
    requires { at + run_size ≤ length part.now }
    ensures { result ≡ number_at run_size part.now at }
{
    wire::u32_of(part[at], part[at + 1], part[at + 2], part[at + 3])
}

// Record i of a part.
fn record_at(part: &[u8], i: usize) -> Run
    requires { record_size * i + record_size ≤ length part.now }
    ensures { result ≡ record_at part.now i }
{
    let at = RECORD_SIZE * i;
    Run {
        number: number_at(part, at),
        marks: number_at(part, at + RUN_SIZE),
    }
}

// Adds the first n records of a part and lays the line of each: one that is refused has a line too.
fn put_lines(window: &mut Window, part: &[u8], n: usize, lines: &mut [u8; ROOM]) -> usize
    requires { (n ≤ at_once) × (record_size * n ≤ length part.now) }
    ensures { LaidLines window.old part.now n window.new lines.old lines.new result }
{
    let texts = Texts::all();
    let mut at: usize = 0;
    for i in 0..n {
        let _ = window.add(record_at(part, i));
        at = texts.put_line(lines, at, &window.missing);
    }
    at
}

// How many records a step takes of a part: at most those of a whole one, and no more than are left.
fn taken(size: usize, left: usize) -> usize
    ensures { result ≡ taken_of size left }
{
    (size / RECORD_SIZE).min(AT_ONCE).min(left)
}

// How many records are left then. A part that is not whole is the input's last.
fn left_after(size: usize, left: usize) -> usize
    ensures { result ≡ left_after size left }
{
    if size < PART_SIZE {
        return 0;
    }
    left - taken(size, left)
}

impl Stream {
    // Of longer inputs the first so many records are taken.
    pub const MOST_RECORDS: usize = 1_000_000;

    pub fn start() -> Stream
        ensures { result ≡ fresh_stream }
    {
        Stream {
            window: Window::empty(),
            left: Stream::MOST_RECORDS,
        }
    }

    // Takes the records of the next part of the input, lays their lines at the front of a buffer, and answers how many
    // bytes they have. A part shorter than PART_SIZE is the input's last; what is beyond PART_SIZE is not looked at.
    pub fn step(&mut self, part: &[u8], lines: &mut [u8; ROOM]) -> usize
        ensures { SteppedOver self.old part.now self.new lines.old lines.new result }
    {
        let n = taken(part.len(), self.left);
        let size = put_lines(&mut self.window, part, n, lines);
        self.left = left_after(part.len(), self.left);
        size
    }
}
