// The archive for C and Rust: each export is the function of crate boundary that has its name, and promises the same in
// the same words, to which docs/check holds it. docs/LINKING.md says how to link and call it, rail.h declares it for C.
// A crate is a library for other crates or an archive, not both, so nothing else stands here.
#![tactic(auto)]

ghost use Rattle.std.specs.Prelude.{length};
ghost use Rattle.wire.specs.Outcome.{value_or};
ghost use Rattle.crew.specs.Parts.{crew_of};
ghost use Rattle.crew.specs.Acceptance.{accept_of};
ghost use Rattle.least_crews.specs.Search.{lookup_of};
ghost use Rattle.current.specs.Shares.{split_of};
ghost use Rattle.boundary.specs.Answers.{
  done,
  itself,
  least_number,
  choice_number,
  entry_number,
  Answered,
  Leaves,
  start_into,
  record_after,
  write_from,
  buffer_from,
  take_from,
  ask_from,
  marks_from,
  result_from,
  read_into,
  fields_after,
  entry_from,
};

use wire::Plan;

// Accepts a crew.
#[unsafe(no_mangle)]
pub extern "C" fn rail_accept(class: u8, n: u8, b: u8, f: u8, d: u8, c: u8) -> u64
    ensures { Answered done (accept_of (crew_of class n b f d c)) result }
{
    boundary::rail_accept(class, n, b, f, d, c)
}

// Looks up the least n that any D lets be accepted, and the least D for that n.
#[unsafe(no_mangle)]
pub extern "C" fn rail_least(class: u8, b: u8, f: u8) -> u64
    ensures { Answered least_number (lookup_of class b f) result }
{
    boundary::rail_least(class, b, f)
}

// Starts a node and writes its record's image.
#[unsafe(no_mangle)]
pub extern "C" fn rail_start(
    class: u8,
    n: u8,
    b: u8,
    f: u8,
    d: u8,
    c: u8,
    own: u8,
    run: u32,
    plan: Plan,
    image: &mut [u8],
) -> u64
    ensures { Leaves done (start_into image.old (crew_of class n b f d c) own run plan)
        (record_after image.old) result image.new }
{
    boundary::rail_start(class, n, b, f, d, c, own, run, plan, image)
}

// Writes the coming message to the front of a buffer; the value is its length, 0 for silence.
#[unsafe(no_mangle)]
pub extern "C" fn rail_write(image: &[u8], buffer: &mut [u8]) -> u64
    ensures { Leaves itself (write_from image.now buffer.old)
        (buffer_from image.now buffer.old) result buffer.new }
{
    boundary::rail_write(image, buffer)
}

// Takes a round: the image becomes the next record's.
#[unsafe(no_mangle)]
pub extern "C" fn rail_take(image: &mut [u8], inbox: &[u8]) -> u64
    ensures { Leaves done (take_from image.old inbox.now)
        (record_after image.old) result image.new }
{
    boundary::rail_take(image, inbox)
}

// Asks for the coming selection.
#[unsafe(no_mangle)]
pub extern "C" fn rail_ask(image: &[u8], inbox: &[u8]) -> u64
    ensures { Answered choice_number (ask_from image.now inbox.now) result }
{
    boundary::rail_ask(image, inbox)
}

// Tells the slots that count in the coming round.
#[unsafe(no_mangle)]
pub extern "C" fn rail_marks(image: &[u8], inbox: &[u8]) -> u64
    ensures { Answered itself (marks_from image.now inbox.now) result }
{
    boundary::rail_marks(image, inbox)
}

// The record's standing result, 0 before it has one.
#[unsafe(no_mangle)]
pub extern "C" fn rail_result(image: &[u8]) -> u64
    ensures { Answered itself (result_from image.now) result }
{
    boundary::rail_result(image)
}

// Reads the message that a slice holds, with nothing but zeros behind it, and lays its fields out.
#[unsafe(no_mangle)]
pub extern "C" fn rail_read(bytes: &[u8], fields: &mut [u8]) -> u64
    ensures { Leaves done (read_into bytes.now fields.old)
        (fields_after fields.old) result fields.new }
{
    boundary::rail_read(bytes, fields)
}

// Entry i of the message that a slice holds, read in the same way: its phase times 2^32, and its plan.
#[unsafe(no_mangle)]
pub extern "C" fn rail_entry(bytes: &[u8], i: usize) -> u64
    ensures { Answered entry_number (entry_from bytes.now i) result }
{
    boundary::rail_entry(bytes, i)
}

// Splits a budget among shuttles, into the lent shares.
#[unsafe(no_mangle)]
pub extern "C" fn rail_split(demands: &[u32], budget: u32, shares: &mut [u32]) -> u64
    ensures { Leaves done (split_of demands.now budget (length shares.old))
        (value_or shares.old) result shares.new }
{
    boundary::rail_split(demands, budget, shares)
}
