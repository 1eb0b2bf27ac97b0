// The words that every crate above shares: plans, phases, and numbers in bytes, which are taken from bytes and laid as
// bytes here and nowhere else. specs/Sizes.antt has the sizes as the definitions have them, specs/Bytes.antt the bytes.
#![tactic(auto)]

ghost use Rattle.std.specs.Prelude.{◌≡◌, ℕ, [], ◌∷◌, ◌+◌, ◌*◌, ◌<◌, leb};
ghost use Rattle.wire.specs.Plan.{plan_ok, phase_ok};
ghost use Rattle.wire.specs.Sizes.{plan_size};
ghost use Rattle.wire.specs.Bytes.{number_at, bytes_of, laid};

// A plan's number, 0 where there is none. A count is no plan, and stays a plain number.
pub type Plan = u16;

// How many bytes a plan takes in messages and images.
pub const PLAN_SIZE: usize = 2;

// How many bytes a run takes there.
pub const RUN_SIZE: usize = 4;

// The last phase of a run: no message has a later one.
pub const LAST_PHASE: u8 = 63;

// A history has an entry for each phase from 0, the time before the first, to the last. It is made wide by `as`, for a
// constant calls no function.
pub const PHASES: usize = LAST_PHASE as usize + 1;

// Whether a phase has rounds: 0 is the time before the first.
pub fn is_phase(phase: u8) -> bool
    ensures { result ≡ phase_ok phase }
{
    (1..=LAST_PHASE).contains(&phase)
}

// Whether a number is a plan: 0 means none.
pub fn is_plan(plan: Plan) -> bool
    ensures { result ≡ plan_ok plan }
{
    1 <= plan
}

// The number of two bytes, the least first. Reading is a function for each size, and no method of `Number` below: it
// would take `[u8; N]`, and the method of an impl with a const parameter cannot take its trait's clauses yet, so each
// would write them out again.
pub fn u16_of(low: u8, high: u8) -> u16
    ensures { result ≡ number_at 2 (low ∷ high ∷ []) 0 }
{
    u16::from_le_bytes([low, high])
}

// The number of four bytes, the least first.
pub fn u32_of(first: u8, second: u8, third: u8, fourth: u8) -> u32
    ensures { result ≡ number_at 4 (first ∷ second ∷ third ∷ fourth ∷ []) 0 }
{
    u32::from_le_bytes([first, second, third, fourth])
}

// The plan that stands in these bytes: as many as a plan takes.
pub fn plan_of(low: u8, high: u8) -> Plan
    ensures { result ≡ number_at plan_size (low ∷ high ∷ []) 0 }
{
    u16_of(low, high)
}

// Whether so many bytes have room from a place on.
fn has_room(length: usize, place: usize, size: usize) -> bool
    ensures { result ≡ leb (place + size) length }
{
    size <= length && place <= length - size
}

// Lays bytes from a place on; leaves a buffer that has no room for them as it is.
#[tactic(auto, using(crate::proofs::Stores::laid_part), unfolding(crate::specs::Bytes::laid))]
fn put_bytes(buf: &mut [u8], place: usize, bytes: &[u8])
    ensures { buf.new ≡ laid buf.old place bytes.now }
{
    if has_room(buf.len(), place, bytes.len()) {
        buf[place..place + bytes.len()].copy_from_slice(bytes);
    }
}

// A number of a message or an image, of as many bytes as its type has. A plan is one of these types, and so is a run.
pub trait Number: Copy {
    ghost size: { ℕ };

    ghost value: { Self → ℕ };

    // Lays the number from a place on, the least byte first; leaves a buffer that has no room for it as it is.
    fn put(self, buf: &mut [u8], place: usize)
        ensures { buf.new ≡ laid buf.old place (bytes_of size (value self)) };
}

impl Number for u16 {
    ghost size = { 2 };

    ghost value = { λ number. number };

    fn put(self, buf: &mut [u8], place: usize) {
        put_bytes(buf, place, &u16::to_le_bytes(self));
    }
}

impl Number for u32 {
    ghost size = { 4 };

    ghost value = { λ number. number };

    fn put(self, buf: &mut [u8], place: usize) {
        put_bytes(buf, place, &u32::to_le_bytes(self));
    }
}
