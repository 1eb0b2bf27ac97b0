// Counts over the columns, and what is found by them: which slots are possible, and which plans enough slots vote for.
// Every count is of slots, over the first slots.count of the columns' places (src/slots.rt). Columns and slots stay two
// parameters: a count may be of other marks than the columns' own, over the same slots.
// The tests stand in specs/Marks.antt, what functions ask and promise in several parts in specs/Promises.antt.
ghost use Rattle.std.specs.Prelude.{◌≡◌, ℕ, cond, ◌&&◌, ◌<◌, get_or};
ghost use Rattle.crew.specs.Parts.{most_nodes};
ghost use Rattle.ballot.specs.Least.{or_zero};
ghost use Rattle.ballot.specs.Promises.{Counted};
ghost use Rattle.tally.specs.Marks.{
  Marks,
  marked,
  voting,
  voters_of,
  supporting,
  is_lister,
  has_needed,
  stamped_with,
  repeated,
  is_new,
  reaching,
  highest,
  least_in,
};
ghost use Rattle.tally.specs.Promises.{CountedBy, FirstAlike, WithPlan, Found};

use crate::slots::Slots;
use crew::MOST_NODES;
use inbox::Columns;
use node::Node;
use wire::Plan;

// How many slots pass the test. Every slot is looked at, and the tests below join what they ask without a branch: so
// the compiler takes many slots at a time.
fn count<F: Fn(usize) -> bool>(slots: Slots, test: F) -> u16
    requires { (q : ℕ) → q < slots.count → F.pre test q }
    ensures { CountedBy (F.post test) slots.count result }
{
    let mut count = 0;
    for q in 0..slots.count {
        count += u16::from(test(q));
    }
    count
}

// How many slots are there.
pub(crate) fn count_present(columns: &Columns, slots: Slots) -> u16
    ensures { Counted (marked columns.now.present) slots.count result }
{
    count(slots, |q| columns.present[q])
}

// How many slots that are there have the stamp.
pub(crate) fn count_stamped(columns: &Columns, slots: Slots, stamp: u8) -> u16
    ensures { Counted (stamped_with columns.now.present columns.now.stamps stamp) slots.count result }
{
    count(slots, |q| columns.present[q] & (columns.stamps[q] == stamp))
}

// How many marked slots have the vote.
fn count_votes(columns: &Columns, marks: &[bool; MOST_NODES], slots: Slots, vote: Plan) -> u16
    ensures { Counted (voting marks.now columns.now.votes vote) slots.count result }
{
    count(slots, |q| marks[q] & (columns.votes[q] == vote))
}

// How many slots have the vote, or a stamp below the bound.
fn count_supporting(columns: &Columns, slots: Slots, vote: Plan, below: u8) -> u16
    ensures { Counted (supporting columns.now.present columns.now.votes columns.now.stamps vote below)
        slots.count result }
{
    count(
        slots,
        |q| columns.present[q] & ((columns.votes[q] == vote) | (columns.stamps[q] < below)),
    )
}

// What stands at a place of the histories; no plan where they have no such place.
fn plan_at(histories: &[Plan], place: usize) -> Plan
    ensures { result ≡ get_or histories.now place 0 }
{
    histories.get(place).copied().unwrap_or(Node::NO_PLAN)
}

// How many slots list the plan at a phase, of rows with `phases` places. An empty place lists nothing, not even where
// the plan is none.
fn count_listing(
    columns: &Columns,
    histories: &[Plan],
    phases: u8,
    slots: Slots,
    plan: Plan,
    phase: u8,
) -> u16
    ensures { Counted (is_lister columns.now.present histories.now phases plan phase) slots.count result }
{
    let known = phase < phases && Node::NO_PLAN < plan;
    let width = usize::from(phases);
    let first = usize::from(phase);
    count(
        slots,
        |q| columns.present[q] & (known & (plan_at(histories, width * q + first) == plan)),
    )
}

// Whether a slot before slot q has its vote. Here and in `first_alike` what is asked of a slot is joined by & and not
// by &&: measured, && takes a quarter longer where votes agree, and twice as long where no two do.
fn is_repeated(columns: &Columns, q: usize) -> bool
    requires { q < most_nodes }
    ensures { result ≡ repeated columns.now.present columns.now.votes q }
{
    (0..q).any(|p| columns.present[p] & (columns.votes[p] == columns.votes[q]))
}

// The first slot that says what slot q says, where one before it does; else slot q. None is looked for where slot q is
// absent.
fn first_alike(columns: &Columns, q: usize) -> usize
    requires { q < most_nodes }
    ensures { FirstAlike columns.now.present columns.now.votes columns.now.stamps q result }
{
    if !columns.present[q] {
        return q;
    }
    let alike = |&p: &usize| {
        columns.present[p]
            & (columns.votes[p] == columns.votes[q])
            & (columns.stamps[p] == columns.stamps[q])
    };
    (0..q).find(alike).unwrap_or(q)
}

// What a slot needs to be possible, and in class 3 to back its vote: that so many slots support what it says, and that
// so many list its vote at its stamp. `slots` and `phases` say how far the columns and the rows of the histories go.
#[derive(Clone, Copy, PartialEq, Eq, Debug)]
pub(crate) struct Needed {
    pub slots: Slots,
    pub phases: u8,
    pub supporters: u16,
    pub listers: u16,
}

// Whether slot q is there and has what it needs. Listers are counted only where some are asked for.
fn has_needed(columns: &Columns, histories: &[Plan], needed: Needed, q: usize) -> bool
    requires { q < most_nodes }
    ensures { result ≡ has_needed columns.now.present columns.now.votes columns.now.stamps
        histories.now needed q }
{
    let slots = needed.slots;
    let vote = columns.votes[q];
    let stamp = columns.stamps[q];
    columns.present[q]
        && needed.supporters <= count_supporting(columns, slots, vote, stamp)
        && (needed.listers == 0
            || needed.listers
                <= count_listing(columns, histories, needed.phases, slots, vote, stamp))
}

// Marks the slots that have what they need. What slots say is counted once: a slot that says what an earlier one said
// has its mark.
pub(crate) fn mark_with_needed(
    columns: &Columns,
    histories: &[Plan],
    needed: Needed,
) -> [bool; MOST_NODES]
    ensures { Marks result needed.slots.count
        (has_needed columns.now.present columns.now.votes columns.now.stamps histories.now needed) }
{
    let mut marks = [false; MOST_NODES];
    for q in 0..needed.slots.count {
        let first = first_alike(columns, q);
        marks[q] = if first < q {
            marks[first]
        } else {
            has_needed(columns, histories, needed, q)
        };
    }
    marks
}

// Marks each slot with this stamp. A loop and no `array::from_fn`: that was tried, and what it promises of 32 items did
// not come to `Marks` (goal `returns`).
pub(crate) fn mark_stamped(columns: &Columns, slots: Slots, stamp: u8) -> [bool; MOST_NODES]
    ensures { Marks result slots.count (stamped_with columns.now.present columns.now.stamps stamp) }
{
    let mut marks = [false; MOST_NODES];
    for q in 0..slots.count {
        marks[q] = columns.present[q] & (columns.stamps[q] == stamp);
    }
    marks
}

// Which plans are found: none, one, or several, and then the least of them.
#[derive(Clone, Copy, PartialEq, Eq, Debug)]
pub(crate) enum Plans {
    Nothing,
    Sole(Plan),
    Several(Plan),
}

impl Plans {
    // One plan more among those that are found.
    fn with(self, plan: Plan) -> Plans
        ensures { WithPlan self plan result }
    {
        match self {
            Plans::Nothing => Plans::Sole(plan),
            Plans::Sole(known) if known == plan => self,
            Plans::Sole(least) | Plans::Several(least) => Plans::Several(least.min(plan)),
        }
    }

    // The least of the plans that are found, 0 where there is none.
    pub(crate) fn least(self) -> Plan
        ensures { result ≡ or_zero (least_in self) }
    {
        match self {
            Plans::Nothing => Node::NO_PLAN,
            Plans::Sole(least) | Plans::Several(least) => least,
        }
    }
}

// Whether slot q is there and is the first with its vote.
fn is_new(columns: &Columns, q: usize) -> bool
    requires { q < most_nodes }
    ensures { result ≡ is_new columns.now.present columns.now.votes q }
{
    columns.present[q] && !is_repeated(columns, q)
}

// The plans that slots vote for and that so many marked slots have. A vote is counted once, at the first slot that has
// it.
pub(crate) fn find_plans(
    columns: &Columns,
    marks: &[bool; MOST_NODES],
    slots: Slots,
    needed: u16,
) -> Plans
    ensures { Found columns.now.present marks.now columns.now.votes slots.count needed result }
{
    let mut plans = Plans::Nothing;
    for q in 0..slots.count {
        let vote = columns.votes[q];
        if is_new(columns, q) && needed <= count_votes(columns, marks, slots, vote) {
            plans = plans.with(vote);
        }
    }
    plans
}

// How many slots have the vote that most have; 0 where no slot is there.
pub(crate) fn most_votes(columns: &Columns, slots: Slots) -> u16
    ensures { result ≡ highest (marked columns.now.present)
        (voters_of columns.now.present columns.now.votes slots.count) slots.count }
{
    let mut most = 0;
    for q in 0..slots.count {
        if is_new(columns, q) {
            most = most.max(count_votes(columns, &columns.present, slots, columns.votes[q]));
        }
    }
    most
}
