// A crew: how many nodes agree, how many of them may lie or be out of reach, how many votes decide, and how many nodes
// validate in a phase. Accepting one is the ground of every other promise; specs/Acceptance.antt says when,
// proofs/Facts.antt what follows. Which nodes validate stands in specs/Group.antt.
#![tactic(auto)]

ghost use Rattle.std.specs.Prelude.{◌≡◌, ◌+◌, ◌*◌, ◌%◌, ◌≤◌, ◌<◌};
ghost use Rattle.wire.specs.Outcome.{is_accepted};
ghost use Rattle.crew.specs.Parts.{blank_crew};
ghost use Rattle.crew.specs.Acceptance.{
  class_known,
  size_known,
  reachable,
  high_enough,
  group_known,
  quorum_of,
  accept_of,
  accept_answer,
};
ghost use Rattle.crew.specs.Group.{validates, ValidatorsAmong};
ghost use Rattle.crew.specs.Promises.{in_row};

// No aisle has more controllers: columns and tables have a place for each of so many.
pub const MOST_NODES: usize = 32;

// A phase is a byte, so there are fewer of them.
const BYTE_VALUES: u16 = 256;

// 01's crew: the controllers of one aisle that agree on a plan.
#[derive(Clone, Copy, PartialEq, Eq, Debug, Default)]
pub struct Crew {
    // 1 to 3: which of the algorithm's three classes the crew runs. A byte and no enum: `accept` answers for a crew of
    // any six bytes, `accept_of`, and a narrower type would ask more of its caller.
    pub class: u8,
    // How many nodes there are.
    pub n: u8,
    // At most so many nodes are not honest.
    pub b: u8,
    // At most so many honest nodes are out of reach.
    pub f: u8,
    // 01's D: how many votes decide.
    pub d: u8,
    // How many nodes validate in each phase, in turn.
    pub c: u8,
}

// Why a crew is turned down; `accept_number` in specs/Acceptance.antt has the papers' numbers.
#[derive(Clone, Copy, PartialEq, Eq, Debug)]
pub enum AcceptRefusal {
    Class,
    Size,
    QuorumTooHigh,
    QuorumTooLow,
    // The crew has fewer nodes than the group, or the class asks for a larger group.
    Group,
}

impl Crew {
    // The algorithm's three classes. Class 1 has no validation: its stamps stay 0.
    pub const CLASS_ONE: u8 = 1;

    pub const CLASS_TWO: u8 = 2;
    // Only class 3 selects by what nodes list of their histories.
    pub const CLASS_THREE: u8 = 3;
}

// The crew of a record that belongs to none: all 0, and never accepted.
pub fn blank_crew() -> Crew
    ensures { result ≡ blank_crew }
{
    Crew::default()
}

fn is_class(crew: Crew) -> bool
    ensures { result ≡ class_known crew }
{
    (Crew::CLASS_ONE..=Crew::CLASS_THREE).contains(&crew.class)
}

fn is_size(crew: Crew) -> bool
    ensures { result ≡ size_known crew }
{
    (1..=MOST_NODES).contains(&usize::from(crew.n))
}

// D votes can be had with b + f nodes missing. Sums pass a byte's range, so they are taken wide here and below.
fn is_reachable(crew: Crew) -> bool
    ensures { result ≡ reachable crew }
{
    u32::from(crew.d) + u32::from(crew.b) + u32::from(crew.f) <= u32::from(crew.n)
}

// D is high enough for the class.
fn is_high_enough(crew: Crew) -> bool
    ensures { result ≡ high_enough crew }
{
    let n = u32::from(crew.n);
    let d = u32::from(crew.d);
    let b = u32::from(crew.b);
    let f = u32::from(crew.f);
    match crew.class {
        Crew::CLASS_ONE => n + 3 * b + f < 2 * d,
        Crew::CLASS_TWO => 3 * b + f < d,
        _ => 2 * b + f < d,
    }
}

// The group is large enough for the class, and no larger than the crew. Class 1 has no validation: there all nodes are
// the group.
fn is_group(crew: Crew) -> bool
    ensures { result ≡ group_known crew }
{
    let b = u32::from(crew.b);
    let f = u32::from(crew.f);
    let c = u32::from(crew.c);
    match crew.class {
        Crew::CLASS_ONE => crew.c == crew.n,
        Crew::CLASS_TWO => crew.c <= crew.n && b < c,
        _ => crew.c <= crew.n && 3 * b + 2 * f < c,
    }
}

// Accepts all of a crew but its group, or says why not: the first of 01's four conditions that fails.
fn accept_quorum(crew: Crew) -> Result<(), AcceptRefusal>
    ensures { accept_answer result ≡ quorum_of crew }
{
    if !is_class(crew) {
        return Err(AcceptRefusal::Class);
    }
    if !is_size(crew) {
        return Err(AcceptRefusal::Size);
    }
    if !is_reachable(crew) {
        return Err(AcceptRefusal::QuorumTooHigh);
    }
    if !is_high_enough(crew) {
        return Err(AcceptRefusal::QuorumTooLow);
    }
    Ok(())
}

// Accepts a crew, or says why not: the first of the papers' conditions that fails. The group comes last.
#[tactic(auto, unfolding(crate::specs::Acceptance::accept_of))]
pub fn accept(crew: Crew) -> Result<(), AcceptRefusal>
    ensures { accept_answer result ≡ accept_of crew }
{
    accept_quorum(crew)?;
    if !is_group(crew) {
        return Err(AcceptRefusal::Group);
    }
    Ok(())
}

// Whether a crew is accepted, where it does not matter why not.
pub fn is_accepted(crew: Crew) -> bool
    ensures { result ≡ is_accepted (accept_of crew) }
{
    accept(crew).is_ok()
}

// What a number leaves where n is taken away as often as it can be. The number is below 256 times n: half as many are
// tried at once, then half of what is left to try, down to n itself. For every number that is the same few steps: a
// `while`, which counts no index.
fn left_over(number: u16, n: u16) -> u16
    requires { (number < 256 * n) × (n < 256) }
    ensures { (result ≡ number % n) × (result < n) }
{
    let mut rest = number;
    let mut left = BYTE_VALUES;
    while 1 < left {
        let half = left / 2;
        rest = rest.checked_sub(half * n).unwrap_or(rest);
        left -= half;
    }
    rest
}

// How far a phase moves the group's first node on: c nodes, less whole rounds of the crew.
fn moved(crew: Crew) -> u16
    requires { 0 < crew.n }
    ensures { (result ≡ crew.c % crew.n) × (result < crew.n) }
{
    if crew.c < crew.n {
        return u16::from(crew.c);
    }
    left_over(u16::from(crew.c), u16::from(crew.n))
}

// The first node of a phase's group: c nodes on for each phase, round the end of the crew. It is worked out by
// subtracting (02, C-14): in round 2 there is no division by n.
fn first_validator(crew: Crew, phase: u8) -> u8
    ensures first { 0 < crew.n → result ≡ phase * crew.c % crew.n }
    ensures within { result ≤ crew.n }
{
    if crew.n == 0 {
        return 0;
    }
    left_over(u16::from(phase) * moved(crew), u16::from(crew.n)) as u8
}

// How many nodes after the first node q comes, round the end of the crew. It is a byte, and both tests of a row are
// taken without a jump, by `&`: so the compiler tests 16 nodes at once.
fn distance(crew: Crew, first: u8, q: u8) -> u8
    requires { first ≤ crew.n }
    ensures { (first ≤ q → result + first ≡ q) × (q < first → result + first ≡ q + crew.n) }
{
    if first <= q {
        return q - first;
    }
    q + (crew.n - first)
}

// Whether node q is one of the c nodes from the first on, round the end of the crew.
fn is_in_row(crew: Crew, first: u8, q: u8) -> bool
    requires { first ≤ crew.n }
    ensures { result ≡ in_row crew first q }
{
    (q < crew.n) & (distance(crew, first, q) < crew.c)
}

// Whether node q validates in a phase.
#[tactic(auto, using(crate::proofs::Rows::validates_row))]
pub fn is_validator(crew: Crew, phase: u8, q: u8) -> bool
    ensures { result ≡ validates crew phase q }
{
    let first = first_validator(crew, phase);
    is_in_row(crew, first, q)
}

// Of the nodes that are marked, those that validate in a phase.
pub fn validators_among(crew: Crew, phase: u8, marks: [bool; MOST_NODES]) -> [bool; MOST_NODES]
    ensures { ValidatorsAmong crew phase marks result }
{
    let first = first_validator(crew, phase);
    let mut kept = marks;
    for (q, mark) in kept.iter_mut().enumerate() {
        *mark &= is_in_row(crew, first, q as u8);
    }
    kept
}
