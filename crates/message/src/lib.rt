// Messages: their layout and bounds, and reading any bytes. It knows nothing of crews.
// What a slice is read to stands in specs/Reading.antt, where a message is expected in specs/Laying.antt; a message's
// bytes in specs/Encoding.antt, its bounds in specs/Bounds.antt. Crate writer
// writes messages; that reading and writing undo each other is proved in crate codec.
#![tactic(auto)]

ghost use Rattle.std.specs.Prelude.{◌≡◌, true, ◌+◌, ◌*◌, ◌≤◌, length, get_or, drop, eqb};
ghost use Rattle.wire.specs.Bytes.{number_at};
ghost use Rattle.wire.specs.Sizes.{plan_size, run_size};
ghost use Rattle.wire.specs.Plan.{phase_ok, plan_ok};
ghost use Rattle.message.specs.Layout.{run_place, phase_place, header_size, plan_place};
ghost use Rattle.message.specs.Layout.{count_place, entries_place, entry_size};
ghost use Rattle.message.specs.Bounds.{entries_ok};
ghost use Rattle.message.specs.Encoding.{size_of};
ghost use Rattle.message.specs.Reading.{
  length_at,
  entries_in,
  entry_in_slice,
  body_at,
  framed,
  rest_of,
  all_zero,
  read_of,
  entries_counted,
  entries_part_of,
  entry_at,
  entry_as,
  count_in,
  body_as,
  read_answer,
};
ghost use Rattle.message.specs.Laying.{headed, ExpectedFrom};
ghost use Rattle.message.specs.Promises.{
  KnownKind,
  Framed,
  HeldInFull,
  header_at,
  RowFor,
  LaidEntry,
  LaidEntries,
  BehindEntry,
  LaidInRow,
  LaidBody,
  LaidFront,
  LaidMessage,
};

use wire::{LAST_PHASE, PLAN_SIZE, Plan, RUN_SIZE};

// Where the fields stand, each where the one before it ends, as in specs/Layout.antt.
pub const LENGTH_AT: usize = 0;

pub const KIND_AT: usize = LENGTH_AT + 2;

pub const RUN_AT: usize = KIND_AT + 2;

pub const PHASE_AT: usize = RUN_AT + RUN_SIZE;

const HEADER: usize = PHASE_AT + 1;
// The vote of a selection or decision, the plan of a validation.
pub const PLAN_AT: usize = HEADER;

pub const STAMP_AT: usize = PLAN_AT + PLAN_SIZE;

pub const COUNT_AT: usize = STAMP_AT + 1;

pub const ENTRIES_AT: usize = COUNT_AT + 1;
// An entry is a phase and a plan.
pub const ENTRY_SIZE: usize = 1 + PLAN_SIZE;
// No selection lists more: one for each phase before the last.
const MOST_ENTRIES: u8 = LAST_PHASE;
// A selection with all its entries is the longest message; a slot of an inbox has room for it.
pub const SLOT: usize = ENTRIES_AT + ENTRY_SIZE * (MOST_ENTRIES as usize);

// The kinds as the wire has them (`Kind` is what the functions below go by), and their lengths where a field of the
// message is to be compared with one; a selection is as long as its entries make it.
pub const SELECTION: u16 = 1;

pub const VALIDATION: u16 = 2;

pub const DECISION: u16 = 3;

pub const VALIDATION_LENGTH: u16 = (PLAN_AT + PLAN_SIZE) as u16;

pub const DECISION_LENGTH: u16 = (STAMP_AT + 1) as u16;

pub const SELECTION_LENGTH: u16 = ENTRIES_AT as u16;

// So many bytes the compiler joins at once: two vectors of the processor.
const BLOCK: usize = 32;

// Why reading refuses; `read_number` in specs/Reading.antt has the papers' numbers.
#[derive(Clone, Copy, PartialEq, Eq, Debug)]
pub enum ReadRefusal {
    // The slice ends before the message does, or before its header does.
    Cut,
    Kind,
    Length,
    Bound,
    // A byte that is not 0 stands behind the message.
    Residue,
}

// What a message says, by its kind. Of a history only how many entries there are: they stay where they stand.
#[derive(Clone, Copy, PartialEq, Eq, Debug)]
pub enum Body {
    Selection { vote: Plan, stamp: u8, count: u8 },
    Validation { plan: Plan },
    Decision { vote: Plan, stamp: u8 },
}

#[derive(Clone, Copy, PartialEq, Eq, Debug)]
pub struct Message {
    pub run: u32,
    pub phase: u8,
    pub body: Body,
}

// What stands in the header of a message that is expected, beside its length. Its kind is a number, as it is in a
// message: where it is none of the three, nothing is expected.
#[derive(Clone, Copy, PartialEq, Eq, Debug)]
pub struct Header {
    pub kind: u16,
    pub run: u32,
    pub phase: u8,
}

// An entry of a history: the plan of a phase.
#[derive(Clone, Copy, PartialEq, Eq, Debug)]
pub struct Entry {
    pub phase: u8,
    pub plan: Plan,
}

// The kind of a message.
#[derive(Clone, Copy, PartialEq, Eq, Debug)]
enum Kind {
    Selection,
    Validation,
    Decision,
}

// 01's 11.
impl TryFrom<u16> for Kind {
    type Error = ReadRefusal;

    ghost try_from_gives = { KnownKind };

    fn try_from(number: u16) -> Result<Kind, ReadRefusal> {
        match number {
            SELECTION => Ok(Kind::Selection),
            VALIDATION => Ok(Kind::Validation),
            DECISION => Ok(Kind::Decision),
            _ => Err(ReadRefusal::Kind),
        }
    }
}

// The number of two bytes from a place on. This, `plan_at` and `run_of` stand in this crate, as their like do in image
// and absence: a public function asks nothing of its caller, so in crate wire each would test the place again.
fn u16_at(s: &[u8], place: usize) -> u16
    requires { place + 2 ≤ length s.now }
    ensures { result ≡ number_at 2 s.now place }
{
    wire::u16_of(s[place], s[place + 1])
}

// The plan that stands from a place on.
fn plan_at(s: &[u8], place: usize) -> Plan
    requires { place + plan_size ≤ length s.now }
    ensures { result ≡ number_at plan_size s.now place }
{
    wire::plan_of(s[place], s[place + 1])
}

// The entry that stands from a place on.
fn entry_from(s: &[u8], place: usize) -> Entry
    requires { place + entry_size ≤ length s.now }
    ensures phase { result.phase ≡ get_or s.now place 0 }
    ensures plan { result.plan ≡ number_at plan_size s.now (place + 1) }
{
    Entry {
        phase: s[place],
        plan: plan_at(s, place + 1),
    }
}

fn run_of(s: &[u8]) -> u32
    requires { header_size ≤ length s.now }
    ensures { result ≡ number_at run_size s.now run_place }
{
    wire::u32_of(s[RUN_AT], s[RUN_AT + 1], s[RUN_AT + 2], s[RUN_AT + 3])
}

// The header at the front of a slice, beside its length.
fn header_of(s: &[u8]) -> Header
    requires { header_size ≤ length s.now }
    ensures { result ≡ header_at s.now }
{
    Header {
        kind: u16_at(s, KIND_AT),
        run: run_of(s),
        phase: s[PHASE_AT],
    }
}

// The slice holds a header, and as many bytes as its length says: 01's 10.
fn is_framed(s: &[u8]) -> bool
    ensures { result ≡ framed s.now }
{
    if s.len() < HEADER {
        return false;
    }
    let size = usize::from(u16_at(s, LENGTH_AT));
    HEADER <= size && size <= s.len()
}

// Whether a framed header like this stands at the front of the slice, whatever follows it.
fn has_header(s: &[u8], header: Header) -> bool
    ensures { result ≡ headed header s.now }
{
    is_framed(s) && header_of(s) == header
}

// Whether a framed slice is as long as its kind asks: 01's 12.
fn has_length(s: &[u8], kind: Kind) -> bool
    requires { Framed s.now kind }
    ensures { result ≡ eqb (length_at s.now) (size_of (body_at s.now)) }
{
    let size = u16_at(s, LENGTH_AT);
    match kind {
        // A shorter message has no byte that says how many entries follow.
        Kind::Selection => {
            SELECTION_LENGTH <= size
                && size == SELECTION_LENGTH + ENTRY_SIZE as u16 * u16::from(s[COUNT_AT])
        }
        Kind::Validation => size == VALIDATION_LENGTH,
        Kind::Decision => size == DECISION_LENGTH,
    }
}

// Lays entry i into its place of the row and answers its phase; nothing where it breaks a bound: its phase is not
// before `before`, or it has no plan.
fn lay_entry(s: &[u8], i: usize, before: u8, row: &mut [Plan]) -> Option<u8>
    requires { RowFor s.now (i + 1) before row.old }
    ensures { LaidEntry (entry_in_slice s.now i) before row.old result row.new }
{
    let entry = entry_from(s, ENTRIES_AT + ENTRY_SIZE * i);
    if before <= entry.phase || !wire::is_plan(entry.plan) {
        return None;
    }
    row[usize::from(entry.phase)] = entry.plan;
    Some(entry.phase)
}

// Lays the entries into the row, each at its phase, and answers the phase that one before them must be before; nothing
// where they break a bound: their phases rise strictly and stay below the message's, and no entry is empty. It goes
// from the last entry back: so one comparison tells both that the phases rise and that the row has the place.
fn lay_entries(s: &[u8], count: usize, phase: u8, row: &mut [Plan]) -> Option<u8>
    requires { RowFor s.now count phase row.old }
    ensures { LaidEntries (entries_in count (drop entries_place s.now)) phase
        row.old result row.new }
{
    let mut before = phase;
    // Two entries a turn: this is where most of the time of reading a long selection goes, and one a turn takes two
    // thirds longer. Of an odd number the last one goes first.
    if count % 2 == 1 {
        before = lay_entry(s, count - 1, before, row)?;
    }
    for pair in (0..count / 2).rev() {
        let later = lay_entry(s, 2 * pair + 1, before, row)?;
        before = lay_entry(s, 2 * pair, later, row)?;
    }
    Some(before)
}

// Whether the header's phase keeps its bound.
fn has_phase(s: &[u8]) -> bool
    requires { header_size ≤ length s.now }
    ensures { result ≡ phase_ok (get_or s.now phase_place 0) }
{
    wire::is_phase(s[PHASE_AT])
}

// Whether a plan stands after the header: the vote of a selection or decision, the plan of a validation.
fn has_plan(s: &[u8]) -> bool
    requires { plan_place + plan_size ≤ length s.now }
    ensures { result ≡ plan_ok (number_at plan_size s.now plan_place) }
{
    wire::is_plan(plan_at(s, PLAN_AT))
}

// The phase of entry i where it keeps its bounds behind an entry of this phase: its own is later, and it has a plan.
fn phase_behind(s: &[u8], i: usize, last: u8) -> Option<u8>
    requires { entries_place + entry_size * (i + 1) ≤ length s.now }
    ensures { BehindEntry (entry_in_slice s.now i) last result }
{
    let entry = entry_from(s, ENTRIES_AT + ENTRY_SIZE * i);
    if entry.phase <= last || !wire::is_plan(entry.plan) {
        return None;
    }
    Some(entry.phase)
}

// Whether the entries keep their bounds, where nobody asks for them: from the first one on, and no further than to one
// that has no plan or whose phase does not rise. That they stay below the message's is asked of the last one.
fn are_entries(s: &[u8], count: usize, phase: u8) -> bool
    requires { entries_place + entry_size * count ≤ length s.now }
    ensures { result ≡ entries_ok 0 phase (entries_in count (drop entries_place s.now)) }
{
    if count == 0 {
        return true;
    }
    let first = entry_from(s, ENTRIES_AT);
    if !wire::is_plan(first.plan) {
        return false;
    }
    let mut last = first.phase;
    // Two entries a turn, as in `lay_entries`. Of an even number the last one is left.
    for pair in 0..(count - 1) / 2 {
        let Some(between) = phase_behind(s, 2 * pair + 1, last) else {
            return false;
        };
        let Some(next) = phase_behind(s, 2 * pair + 2, between) else {
            return false;
        };
        last = next;
    }
    if count % 2 == 0 {
        let Some(next) = phase_behind(s, count - 1, last) else {
            return false;
        };
        last = next;
    }
    // The phases rise, so all of them are below the message's where the last one is.
    last < phase
}

// Whether a selection's entries keep their bounds. They are laid where the row has a place for each phase before the
// message's, else only tested. It stays a function when it is compiled: within the walk over an inbox's slots that over
// the entries is slower.
#[inline(never)]
fn keeps_entries(s: &[u8], row: &mut [Plan]) -> bool
    requires { entries_place + entry_size * get_or s.now count_place 0 ≤ length s.now }
    ensures { LaidInRow s.now row.old result row.new }
{
    let phase = s[PHASE_AT];
    let count = usize::from(s[COUNT_AT]);
    if row.len() < usize::from(phase) {
        return are_entries(s, count, phase);
    }
    lay_entries(s, count, phase, row).is_some()
}

// Whether the fields of a message that the slice holds in full keep their bounds: 01's 13. The row is for the entries
// of a selection.
fn keeps_bounds(s: &[u8], kind: Kind, row: &mut [Plan]) -> bool
    requires { HeldInFull s.now kind }
    ensures { LaidBody s.now row.old result row.new }
{
    match kind {
        Kind::Selection => {
            let kept = keeps_entries(s, row);
            has_phase(s)
                && has_plan(s)
                && s[STAMP_AT] < s[PHASE_AT]
                && s[COUNT_AT] <= MOST_ENTRIES
                && kept
        }
        Kind::Validation => has_phase(s) && has_plan(s),
        Kind::Decision => has_phase(s) && has_plan(s) && s[STAMP_AT] <= s[PHASE_AT],
    }
}

// What a message that the slice holds in full says, by its kind.
fn body_in(s: &[u8], kind: Kind) -> Body
    requires { HeldInFull s.now kind }
    ensures { body_as result s.now ≡ body_at s.now }
{
    let vote = plan_at(s, PLAN_AT);
    match kind {
        Kind::Selection => Body::Selection {
            vote,
            stamp: s[STAMP_AT],
            count: s[COUNT_AT],
        },
        Kind::Validation => Body::Validation { plan: vote },
        Kind::Decision => Body::Decision {
            vote,
            stamp: s[STAMP_AT],
        },
    }
}

// Reads the message at the front of a slice, whatever follows it, and lays the entries of a selection into the row.
// These are 01's tests in 01's order. This and `read_laying` become part of their callers when they are compiled: a
// message that a call answers goes through memory.
#[inline(always)]
fn read_front(s: &[u8], row: &mut [Plan]) -> Result<Message, ReadRefusal>
    ensures { LaidFront s.now row.old result row.new }
{
    if !is_framed(s) {
        return Err(ReadRefusal::Cut);
    }
    let kind = Kind::try_from(u16_at(s, KIND_AT))?;
    if !has_length(s, kind) {
        return Err(ReadRefusal::Length);
    }
    if !keeps_bounds(s, kind, row) {
        return Err(ReadRefusal::Bound);
    }
    Ok(Message {
        run: run_of(s),
        phase: s[PHASE_AT],
        body: body_in(s, kind),
    })
}

// Bytes joined bit by bit: 0 exactly where all of them are, and nobody asks for more. Every one is looked at, also
// behind one that is not 0, so that the compiler takes several at once.
fn joined(bytes: &[u8]) -> u8
    ensures { eqb result 0 ≡ all_zero bytes.now }
{
    bytes.iter().fold(0, |seen, byte| seen | *byte)
}

// Whether all these bytes are 0: whole blocks from the front, then the last bytes, as a block that overlaps those. So
// none are left over, to be taken one at a time: with one fold over all of them the engine was slower than the second
// one where inboxes are long.
fn are_zeros(bytes: &[u8]) -> bool
    ensures { result ≡ all_zero bytes.now }
{
    let n = bytes.len();
    if n < BLOCK {
        return joined(bytes) == 0;
    }
    let front = joined(&bytes[..n - n % BLOCK]);
    let back = joined(&bytes[n - BLOCK..]);
    (front | back) == 0
}

// Whether nothing but zeros stands behind the message at the front of a slice: 02's 16.
fn is_clear(s: &[u8]) -> bool
    requires { framed s.now ≡ true }
    ensures { result ≡ all_zero (rest_of s.now) }
{
    let size = usize::from(u16_at(s, LENGTH_AT));
    are_zeros(&s[size..])
}

// Reads the message that a slice holds, and lays the entries of a selection into the row. Behind the message every byte
// must be 0: what else stands there is left from an older, longer message, and is refused after all else.
#[inline(always)]
fn read_laying(s: &[u8], row: &mut [Plan]) -> Result<Message, ReadRefusal>
    ensures { LaidMessage s.now row.old result row.new }
{
    let message = read_front(s, row)?;
    if !is_clear(s) {
        return Err(ReadRefusal::Residue);
    }
    Ok(message)
}

// Reads the message that a slice holds.
pub fn read(s: &[u8]) -> Result<Message, ReadRefusal>
    ensures { read_answer result s.now ≡ read_of s.now }
{
    read_laying(s, &mut [])
}

// Reads the message that a slice holds where one with this header is expected, and lays the entries of a selection into
// the row. Answers what it says; nothing where the slice holds another message or none. The header is held against the
// expected one before anything else is looked at.
pub fn read_expected(s: &[u8], header: Header, row: &mut [Plan]) -> Option<Body>
    ensures { ExpectedFrom header s.now row.old result row.new }
{
    if !has_header(s, header) {
        return None;
    }
    let message = read_laying(s, row).ok()?;
    Some(message.body)
}

// The bytes of a selection's entries where reading it has told how many there are, as a part of the slice. Empty where
// the slice is too short for so many.
fn entries_counted(s: &[u8], count: u8) -> &[u8]
    ensures { result.now ≡ entries_counted s.now count }
{
    let end = ENTRIES_AT + ENTRY_SIZE * usize::from(count);
    if end <= s.len() {
        &s[ENTRIES_AT..end]
    } else {
        &s[..0]
    }
}

// How many entries a message counts; only selections have any.
fn count_of(body: Body) -> u8
    ensures { result ≡ count_in body }
{
    match body {
        Body::Selection { count, .. } => count,
        _ => 0,
    }
}

// The bytes of the entries that reading finds, as a part of the slice. Its contents are promised, not its place. An
// empty part and no refusal where reading refuses, as 01 has it: this cannot fail, nor can `entry_at`.
pub fn entries(s: &[u8]) -> &[u8]
    ensures { result.now ≡ entries_part_of s.now (read_of s.now) }
{
    match read(s) {
        Ok(message) => entries_counted(s, count_of(message.body)),
        Err(_) => &s[..0],
    }
}

// Entry i of the bytes that `entries` shows; phase 0 and no plan where they have no such entry.
pub fn entry_at(part: &[u8], i: usize) -> Entry
    ensures { entry_as result ≡ entry_at part.now i }
{
    if i < part.len() / ENTRY_SIZE {
        entry_from(part, ENTRY_SIZE * i)
    } else {
        Entry { phase: 0, plan: 0 }
    }
}
