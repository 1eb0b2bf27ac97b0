// Writing messages from fields within their bounds. It knows nothing of crews.
// What a writer answers and leaves in the buffer stands in specs/Writing.antt; the layout and the bounds are crate
// message's.
#![tactic(auto)]

ghost use Rattle.std.specs.Prelude.{◌≡◌, ◌+◌, ◌≤◌, length, ◌++◌, take, count_by};
ghost use Rattle.std.proofs.lemmas.List.Edits.{sets};
ghost use Rattle.wire.specs.Plan.{plan_ok};
ghost use Rattle.wire.specs.Sizes.{plan_size, history_size};
ghost use Rattle.wire.specs.Bytes.{bytes_of};
ghost use Rattle.message.specs.Encoding.{header as header_bytes, entry_bytes};
ghost use Rattle.message.specs.Layout.{header_size, plan_place, entries_place};
ghost use Rattle.writer.specs.Writing.{
  validation_of,
  decision_of,
  write_message_of,
  write_selection_of,
  message_buffer_of,
  selection_buffer_of,
  write_answer,
  Written,
};
ghost use Rattle.writer.specs.Promises.{HaveRoom, Put};
ghost use Rattle.wire.specs.Entry.{entry_of, entries_from};

use message::{
    COUNT_AT, DECISION, DECISION_LENGTH, ENTRIES_AT, ENTRY_SIZE, Header, KIND_AT, LENGTH_AT,
    PHASE_AT, PLAN_AT, RUN_AT, SELECTION, SELECTION_LENGTH, STAMP_AT, VALIDATION,
    VALIDATION_LENGTH,
};
use wire::{Number, PHASES, Plan};

// Why writing refuses; `write_number` in specs/Writing.antt has 01's numbers.
#[derive(Clone, Copy, PartialEq, Eq, Debug)]
pub enum WriteRefusal {
    // The fields break a bound of the message.
    OutOfBounds,
    // The buffer is shorter than the message.
    Short,
}

fn put_header(buf: &mut [u8], size: u16, header: Header)
    requires { header_size ≤ length buf.old }
    ensures { buf.new ≡ sets buf.old 0 (header_bytes size header.kind header.run header.phase) }
{
    size.put(buf, LENGTH_AT);
    header.kind.put(buf, KIND_AT);
    header.run.put(buf, RUN_AT);
    buf[PHASE_AT] = header.phase;
}

// Writes the header, and after it the plan that every message has: the vote of a selection or decision, the plan of a
// validation.
fn put_front(buf: &mut [u8], size: u16, header: Header, plan: Plan)
    requires { plan_place + plan_size ≤ length buf.old }
    ensures { buf.new
        ≡ sets buf.old 0
        (header_bytes size header.kind header.run header.phase ++ bytes_of plan_size plan) }
{
    put_header(buf, size, header);
    plan.put(buf, PLAN_AT);
}

// Writes a validation and answers its length. Fields that break a bound are refused, then a buffer that is too short.
pub fn write_validation(
    buf: &mut [u8],
    run: u32,
    phase: u8,
    plan: Plan,
) -> Result<usize, WriteRefusal>
    ensures { Written (write_message_of (validation_of run phase plan) buf.old)
        (message_buffer_of (validation_of run phase plan) buf.old) (write_answer result) buf.new }
{
    if !(wire::is_phase(phase) && wire::is_plan(plan)) {
        return Err(WriteRefusal::OutOfBounds);
    }
    if buf.len() < usize::from(VALIDATION_LENGTH) {
        return Err(WriteRefusal::Short);
    }
    let header = Header {
        kind: VALIDATION,
        run,
        phase,
    };
    put_front(buf, VALIDATION_LENGTH, header, plan);
    Ok(usize::from(VALIDATION_LENGTH))
}

// Writes a decision and answers its length. Fields that break a bound are refused, then a buffer that is too short. It
// is like the writer of a validation in shape alone: kind, length, fields and bounds are others.
pub fn write_decision(
    buf: &mut [u8],
    run: u32,
    phase: u8,
    vote: Plan,
    stamp: u8,
) -> Result<usize, WriteRefusal>
    ensures { Written (write_message_of (decision_of run phase vote stamp) buf.old)
        (message_buffer_of (decision_of run phase vote stamp) buf.old) (write_answer result) buf.new }
{
    if !(wire::is_phase(phase) && wire::is_plan(vote) && stamp <= phase) {
        return Err(WriteRefusal::OutOfBounds);
    }
    if buf.len() < usize::from(DECISION_LENGTH) {
        return Err(WriteRefusal::Short);
    }
    let header = Header {
        kind: DECISION,
        run,
        phase,
    };
    put_front(buf, DECISION_LENGTH, header, vote);
    buf[STAMP_AT] = stamp;
    Ok(usize::from(DECISION_LENGTH))
}

// How many of these are plans. It counts in 16 bits, as a plan has: so the compiler counts several at once, which
// `count` in 64 bits does not.
fn count_plans(plans: &[Plan]) -> u16
    requires { length plans.now ≤ history_size }
    ensures { result ≡ count_by plan_ok plans.now }
{
    plans
        .iter()
        .map(|&plan| u16::from(wire::is_plan(plan)))
        .sum()
}

// How many of the first phases have a plan.
fn count_entries(history: &[Plan; PHASES], phases: u8) -> usize
    ensures { result ≡ count_by plan_ok (take phases history.now) }
{
    usize::from(count_plans(&history[..usize::from(phases).min(PHASES)]))
}

// Writes the entry of a phase that has a plan, and answers the place after it.
fn put_entry(buf: &mut [u8], place: usize, phase: u8, plan: Plan) -> usize
    requires { place + length (entry_bytes (entry_of phase plan)) ≤ length buf.old }
    ensures { Put buf.old place (entry_of phase plan) buf.new result }
{
    if !wire::is_plan(plan) {
        return place;
    }
    buf[place] = phase;
    plan.put(buf, place + 1);
    place + ENTRY_SIZE
}

// Writes the entries of the first phases.
fn put_entries(buf: &mut [u8], history: &[Plan; PHASES], phases: u8)
    requires { HaveRoom history.now phases buf.old }
    ensures { buf.new
        ≡ sets buf.old entries_place (entry_bytes (entries_from history.now 0 phases)) }
{
    let mut place = ENTRIES_AT;
    for phase in 0..phases {
        place = put_entry(buf, place, phase, history[usize::from(phase)]);
    }
}

// Writes a selection with the non-empty entries among the first `phases` of a history, where 0 is an empty entry, and
// answers its length. Fields that break a bound are refused, and more phases than the message's own; then a buffer
// that is too short.
pub fn write_selection(
    buf: &mut [u8],
    run: u32,
    phase: u8,
    vote: Plan,
    stamp: u8,
    history: &[Plan; PHASES],
    phases: u8,
) -> Result<usize, WriteRefusal>
    ensures { Written (write_selection_of run phase vote stamp history.now phases buf.old)
        (selection_buffer_of run phase vote stamp history.now phases buf.old) (write_answer result)
        buf.new }
{
    let allowed = phases <= phase && wire::is_phase(phase) && wire::is_plan(vote) && stamp < phase;
    if !allowed {
        return Err(WriteRefusal::OutOfBounds);
    }
    let count = count_entries(history, phases);
    let size = usize::from(SELECTION_LENGTH) + ENTRY_SIZE * count;
    if buf.len() < size {
        return Err(WriteRefusal::Short);
    }
    let header = Header {
        kind: SELECTION,
        run,
        phase,
    };
    put_front(buf, size as u16, header, vote);
    buf[STAMP_AT] = stamp;
    buf[COUNT_AT] = count as u8;
    put_entries(buf, history, phases);
    Ok(size)
}
