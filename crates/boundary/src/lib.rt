// The engine for C and Rust: functions on numbers and lent bytes, each the engine's own operation on the record whose
// image (crate image) it is lent, and the splitting of a budget (crate current) on lent numbers of four bytes.
// docs/LINKING.md says how to call it. Crate boundary_c exports these functions, under their names, from an archive.
// An answer is one number of eight bytes: a value below 2^56, or 2^56 times the number of a refusal. specs/Answers.antt
// says what each function answers and leaves in what it is lent.
#![tactic(auto)]

ghost use Rattle.std.specs.Prelude.{◌≡◌, List, ℕ, ◌<◌, length};
ghost use Rattle.wire.specs.Outcome.{value_or, accepted};
ghost use Rattle.crew.specs.Parts.{crew_of};
ghost use Rattle.crew.specs.Acceptance.{accept_of, accept_number};
ghost use Rattle.least_crews.specs.Search.{lookup_of};
ghost use Rattle.current.specs.Shares.{split_of};
ghost use Rattle.message.specs.Reading.{body_as};
ghost use Rattle.image.specs.Layout.{record_in};
ghost use Rattle.boundary.specs.Answers.{
  refusal_unit,
  done,
  itself,
  least_number,
  choice_number,
  entry_number,
  Answered,
  Leaves,
  on_image,
  start_into,
  record_after,
  write_from,
  buffer_from,
  take_from,
  ask_from,
  marks_from,
  result_from,
  fields_size,
  field_bytes,
  fields_of,
  read_into,
  fields_after,
  entry_from,
};
ghost use Rattle.boundary.specs.Promises.{Numbered, refusal_number, told, Gives};

use crew::{AcceptRefusal, Crew};
use current::SplitRefusal;
use least_crews::LookupRefusal;
use message::{Body, ENTRY_SIZE, Message, ReadRefusal};
use node::{Node, SendRefusal, StartRefusal};
use rounds::TakeRefusal;
use tally::Choice;
use wire::{Number, PLAN_SIZE, Plan, RUN_SIZE};

// The papers' numbers of the refusals. The engine below answers by name: its code has them in this one place (the
// program of crate splits, which does not build on this crate, has 18 and 19 once more).
// Accepting a crew.
const CLASS: u64 = 1;

const SIZE: u64 = 2;

const QUORUM_TOO_HIGH: u64 = 3;

const QUORUM_TOO_LOW: u64 = 4;

// Starting a node: a crew's as well.
const OWN: u64 = 5;

const NO_PLAN: u64 = 6;

// Writing the coming message.
const UNSOUND: u64 = 7;

const SPENT: u64 = 8;

const SHORT: u64 = 9;

// Reading.
const CUT: u64 = 10;

const KIND: u64 = 11;

const LENGTH: u64 = 12;

const BOUND: u64 = 13;

// Taking a round, asking for the coming selection or telling the slots that count: unsound and spent as well.
const INBOX: u64 = 14;

// Looking a least crew up.
const RANGE: u64 = 15;

// Reading, after its other numbers.
const RESIDUE: u64 = 16;

// Accepting a crew, after its other numbers.
const GROUP: u64 = 17;

// Splitting a budget.
const COUNT: u64 = 18;

const AMOUNT: u64 = 19;

// What only this boundary refuses: after the engine's own numbers and those kept for it.
const WRONG_IMAGE: u64 = 25;

const WRONG_FIELDS: u64 = 26;

const NO_ENTRY: u64 = 27;

// The number of a refusal is the top byte of an answer: above every value, which has the seven bytes below it.
const REFUSAL: u64 = 1 << 56;

// A least crew's n stands above its D, which has a byte.
const LEAST_N: u64 = 1 << 8;

// A plan has room for four bytes in a value, though it takes fewer: with wider plans no answer is laid out anew.
const PLAN_ROOM: u64 = 1 << 32;
// What asking answers for 'any': one past what a plan has room for.
const ANY: u64 = PLAN_ROOM;

// Where the fields of a message that is read stand, and how many bytes they take.
const KIND_AT: usize = 0;

const RUN_AT: usize = KIND_AT + 1;

const PHASE_AT: usize = RUN_AT + RUN_SIZE;

const PLAN_AT: usize = PHASE_AT + 1;

const STAMP_AT: usize = PLAN_AT + PLAN_SIZE;

const COUNT_AT: usize = STAMP_AT + 1;

const FIELDS: usize = COUNT_AT + 1;

// The kinds of messages, as the fields have them: in one byte. By `as`, since a constant is no place for `try_from`.
const SELECTION: u8 = message::SELECTION as u8;

const VALIDATION: u8 = message::VALIDATION as u8;

const DECISION: u8 = message::DECISION as u8;

// Why a call is refused: by an operation of the engine, or by this boundary.
#[derive(Clone, Copy, PartialEq, Eq, Debug)]
enum Refusal {
    Crew(AcceptRefusal),
    Start(StartRefusal),
    Send(SendRefusal),
    Take(TakeRefusal),
    Read(ReadRefusal),
    Lookup(LookupRefusal),
    Split(SplitRefusal),
    // The record of the image has no result: it is not sound.
    Unsound,
    // The slice has another length than an image, or than a message's fields.
    WrongImage,
    WrongFields,
    // The message has no entry of this number.
    NoEntry,
}

// The papers' number of what accepting a crew refuses, which is not 0 and has a byte of an answer.
pub fn crew_number(why: AcceptRefusal) -> u64
    ensures number { result ≡ accept_number why }
    ensures byte { (0 < result) × (result < 256) }
{
    match why {
        AcceptRefusal::Class => CLASS,
        AcceptRefusal::Size => SIZE,
        AcceptRefusal::QuorumTooHigh => QUORUM_TOO_HIGH,
        AcceptRefusal::QuorumTooLow => QUORUM_TOO_LOW,
        AcceptRefusal::Group => GROUP,
    }
}

impl Refusal {
    fn number(self) -> u64
        ensures { Numbered (refusal_number self) result }
    {
        match self {
            Refusal::Crew(why) | Refusal::Start(StartRefusal::Crew(why)) => crew_number(why),
            Refusal::Start(StartRefusal::Own) => OWN,
            Refusal::Start(StartRefusal::NoPlan) => NO_PLAN,
            Refusal::Send(SendRefusal::Unsound)
            | Refusal::Take(TakeRefusal::Unsound)
            | Refusal::Unsound => UNSOUND,
            Refusal::Send(SendRefusal::Spent) | Refusal::Take(TakeRefusal::Spent) => SPENT,
            Refusal::Send(SendRefusal::Short) => SHORT,
            Refusal::Take(TakeRefusal::Inbox) => INBOX,
            Refusal::Read(ReadRefusal::Cut) => CUT,
            Refusal::Read(ReadRefusal::Kind) => KIND,
            Refusal::Read(ReadRefusal::Length) => LENGTH,
            Refusal::Read(ReadRefusal::Bound) => BOUND,
            Refusal::Read(ReadRefusal::Residue) => RESIDUE,
            Refusal::Lookup(LookupRefusal::Range) => RANGE,
            Refusal::Split(SplitRefusal::Count) => COUNT,
            Refusal::Split(SplitRefusal::Amount) => AMOUNT,
            Refusal::WrongImage => WRONG_IMAGE,
            Refusal::WrongFields => WRONG_FIELDS,
            Refusal::NoEntry => NO_ENTRY,
        }
    }
}

// What a call from C is answered with: one number. Each call stands in two functions below: the engine's operation on
// what is lent, with a Result, and the call itself, which makes this one number.
fn answer(given: Result<u64, Refusal>) -> u64
    requires { value_or 0 (told given) < refusal_unit }
    ensures { Answered itself (told given) result }
{
    match given {
        Ok(value) => value,
        Err(why) => REFUSAL * why.number(),
    }
}

// The crew of the six bytes that a call from C hands over.
fn crew_of(class: u8, n: u8, b: u8, f: u8, d: u8, c: u8) -> Crew
    ensures { result ≡ crew_of class n b f d c }
{
    Crew {
        class,
        n,
        b,
        f,
        d,
        c,
    }
}

fn accept(crew: Crew) -> Result<u64, Refusal>
    ensures { Gives done (accept_of crew) result }
{
    crew::accept(crew).map_err(Refusal::Crew)?;
    Ok(0)
}

// Accepts a crew.
pub fn rail_accept(class: u8, n: u8, b: u8, f: u8, d: u8, c: u8) -> u64
    ensures { Answered done (accept_of (crew_of class n b f d c)) result }
{
    answer(accept(crew_of(class, n, b, f, d, c)))
}

// A least crew as a number: 256 times n, plus D.
fn least(class: u8, b: u8, f: u8) -> Result<u64, Refusal>
    ensures { Gives least_number (lookup_of class b f) result }
{
    let least = least_crews::lookup(class, b, f).map_err(Refusal::Lookup)?;
    Ok(LEAST_N * u64::from(least.n) + u64::from(least.d))
}

// Looks up the least n that any D lets be accepted, and the least D for that n.
pub fn rail_least(class: u8, b: u8, f: u8) -> u64
    ensures { Answered least_number (lookup_of class b f) result }
{
    answer(least(class, b, f))
}

// The record whose image is lent.
fn load(image: &[u8]) -> Result<Node, Refusal>
    ensures { told result ≡ on_image image.now (accepted (record_in image.now)) }
{
    image::load(image).ok_or(Refusal::WrongImage)
}

fn start(crew: Crew, own: u8, run: u32, plan: Plan, image: &mut [u8]) -> Result<u64, Refusal>
    ensures gives { Gives done (start_into image.old crew own run plan) result }
    ensures left { image.new ≡ record_after image.old (start_into image.old crew own run plan) }
{
    if !image::fits(image) {
        return Err(Refusal::WrongImage);
    }
    let node = Node::start(crew, own, run, plan).map_err(Refusal::Start)?;
    image::store(&node, image);
    Ok(0)
}

// Starts a node and writes its record's image.
pub fn rail_start(
    class: u8,
    n: u8,
    b: u8,
    f: u8,
    d: u8,
    c: u8,
    own: u8,
    run: u32,
    plan: Plan,
    image: &mut [u8],
) -> u64
    ensures { Leaves done (start_into image.old (crew_of class n b f d c) own run plan)
        (record_after image.old) result image.new }
{
    answer(start(crew_of(class, n, b, f, d, c), own, run, plan, image))
}

fn write(image: &[u8], buffer: &mut [u8]) -> Result<u64, Refusal>
    ensures gives { Gives itself (write_from image.now buffer.old) result }
    ensures left { buffer.new ≡ buffer_from image.now buffer.old (write_from image.now buffer.old) }
{
    let node = load(image)?;
    let size = node.write(buffer).map_err(Refusal::Send)?;
    // No `From`: the library has none from a `usize`.
    Ok(size as u64)
}

// Writes the coming message to the front of a buffer; the value is its length, 0 for silence.
pub fn rail_write(image: &[u8], buffer: &mut [u8]) -> u64
    ensures { Leaves itself (write_from image.now buffer.old)
        (buffer_from image.now buffer.old) result buffer.new }
{
    answer(write(image, buffer))
}

fn take(image: &mut [u8], inbox: &[u8]) -> Result<u64, Refusal>
    ensures gives { Gives done (take_from image.old inbox.now) result }
    ensures left { image.new ≡ record_after image.old (take_from image.old inbox.now) }
{
    let mut next = load(image)?;
    rounds::take(&mut next, inbox).map_err(Refusal::Take)?;
    image::store(&next, image);
    Ok(0)
}

// Takes a round: the image becomes the next record's.
pub fn rail_take(image: &mut [u8], inbox: &[u8]) -> u64
    ensures { Leaves done (take_from image.old inbox.now)
        (record_after image.old) result image.new }
{
    answer(take(image, inbox))
}

// A selection as a number: a plan, 0 for 'none', 2^32 for 'any'.
fn ask(image: &[u8], inbox: &[u8]) -> Result<u64, Refusal>
    ensures { Gives choice_number (ask_from image.now inbox.now) result }
{
    let node = load(image)?;
    match rounds::ask(&node, inbox).map_err(Refusal::Take)? {
        Choice::Plan(plan) => Ok(u64::from(plan)),
        Choice::Any => Ok(ANY),
        Choice::Nothing => Ok(0),
    }
}

// Asks for the coming selection.
pub fn rail_ask(image: &[u8], inbox: &[u8]) -> u64
    ensures { Answered choice_number (ask_from image.now inbox.now) result }
{
    answer(ask(image, inbox))
}

fn marks(image: &[u8], inbox: &[u8]) -> Result<u64, Refusal>
    ensures { Gives itself (marks_from image.now inbox.now) result }
{
    let node = load(image)?;
    let marks = rounds::marks(&node, inbox).map_err(Refusal::Take)?;
    Ok(u64::from(marks))
}

// Tells the slots that count in the coming round.
pub fn rail_marks(image: &[u8], inbox: &[u8]) -> u64
    ensures { Answered itself (marks_from image.now inbox.now) result }
{
    answer(marks(image, inbox))
}

fn result(image: &[u8]) -> Result<u64, Refusal>
    ensures { Gives itself (result_from image.now) result }
{
    let node = load(image)?;
    if !node.is_sound() {
        return Err(Refusal::Unsound);
    }
    Ok(u64::from(node.result))
}

// The record's standing result, 0 before it has one.
pub fn rail_result(image: &[u8]) -> u64
    ensures { Answered itself (result_from image.now) result }
{
    answer(result(image))
}

// Lays a message's fields out: kind, run, phase, plan, stamp, count.
fn put_fields(fields: &mut [u8], kind: u8, run: u32, phase: u8, plan: Plan, stamp: u8, count: u8)
    requires { length fields.old ≡ fields_size }
    ensures { fields.new ≡ field_bytes kind run phase plan stamp count }
{
    fields[KIND_AT] = kind;
    run.put(fields, RUN_AT);
    fields[PHASE_AT] = phase;
    plan.put(fields, PLAN_AT);
    fields[STAMP_AT] = stamp;
    fields[COUNT_AT] = count;
}

// Lays a message's fields out, by its kind. What a kind does not have is 0.
fn put_message(fields: &mut [u8], message: Message)
    requires { length fields.old ≡ fields_size }
    ensures { (bytes : List ℕ)
        → fields.new ≡ fields_of message.run message.phase (body_as message.body bytes) }
{
    let run = message.run;
    let phase = message.phase;
    match message.body {
        Body::Selection { vote, stamp, count } => put_fields(
            fields, SELECTION, run, phase, vote, stamp, count,
        ),
        Body::Validation { plan } => put_fields(fields, VALIDATION, run, phase, plan, 0, 0),
        Body::Decision { vote, stamp } => put_fields(fields, DECISION, run, phase, vote, stamp, 0),
    }
}

fn read(bytes: &[u8], fields: &mut [u8]) -> Result<u64, Refusal>
    ensures gives { Gives done (read_into bytes.now fields.old) result }
    ensures left { fields.new ≡ fields_after fields.old (read_into bytes.now fields.old) }
{
    if fields.len() != FIELDS {
        return Err(Refusal::WrongFields);
    }
    let message = message::read(bytes).map_err(Refusal::Read)?;
    put_message(fields, message);
    Ok(0)
}

// Reads the message that a slice holds, with nothing but zeros behind it, and lays its fields out.
pub fn rail_read(bytes: &[u8], fields: &mut [u8]) -> u64
    ensures { Leaves done (read_into bytes.now fields.old)
        (fields_after fields.old) result fields.new }
{
    answer(read(bytes, fields))
}

// An entry as a number: its phase times 2^32, and its plan.
fn entry(bytes: &[u8], i: usize) -> Result<u64, Refusal>
    ensures { Gives entry_number (entry_from bytes.now i) result }
{
    message::read(bytes).map_err(Refusal::Read)?;
    let part = message::entries(bytes);
    if i >= part.len() / ENTRY_SIZE {
        return Err(Refusal::NoEntry);
    }
    let entry = message::entry_at(part, i);
    Ok(PLAN_ROOM * u64::from(entry.phase) + u64::from(entry.plan))
}

// Entry i of the message that a slice holds, read in the same way: its phase times 2^32, and its plan.
pub fn rail_entry(bytes: &[u8], i: usize) -> u64
    ensures { Answered entry_number (entry_from bytes.now i) result }
{
    answer(entry(bytes, i))
}

fn split(demands: &[u32], budget: u32, shares: &mut [u32]) -> Result<u64, Refusal>
    ensures gives { Gives done (split_of demands.now budget (length shares.old)) result }
    ensures left { shares.new ≡ value_or shares.old (split_of demands.now budget (length shares.old)) }
{
    current::split(demands, budget, shares).map_err(Refusal::Split)?;
    Ok(0)
}

// Splits a budget among shuttles, into the lent shares.
pub fn rail_split(demands: &[u32], budget: u32, shares: &mut [u32]) -> u64
    ensures { Leaves done (split_of demands.now budget (length shares.old))
        (value_or shares.old) result shares.new }
{
    answer(split(demands, budget, shares))
}
