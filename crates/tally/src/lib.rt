// The three rules over the columns of an inbox: selection, validation and decision. Crate inbox reads an inbox's bytes
// into the columns; the rules go by counts of slots (src/counts.rt). Only selection in class 3 looks at histories: what
// the others answer holds whatever these are.
// Each rule's answer is that of crate ballot on the ballots of the columns, for every crew and any columns:
// specs/Rules.antt. Crate rounds acts on the answers.
#![tactic(auto)]

mod counts;
mod slots;

ghost use Rattle.std.specs.Prelude.{◌≡◌, List, ℕ};
ghost use Rattle.wire.specs.Entry.{Entry};
ghost use Rattle.crew.specs.Thresholds.{one, two, three, class_of};
ghost use Rattle.ballot.specs.Selection.{any_if, answer, selection, any_plan, taken, taken_on};
ghost use Rattle.ballot.specs.Validation.{validated};
ghost use Rattle.ballot.specs.Decision.{decision};
ghost use Rattle.inbox.specs.Columns.{listed_in, polled};
ghost use Rattle.tally.specs.Marks.{backing_as};
ghost use Rattle.tally.specs.Promises.{Bounded, AnsweredAlike};
ghost use Rattle.tally.specs.Rules.{slots_of, Histories, choice_as};

use counts::{Needed, Plans};
use crew::Crew;
use inbox::Columns;
use node::Node;
use slots::Slots;
use wire::Plan;

// What selection answers.
#[derive(Clone, Copy, PartialEq, Eq, Debug)]
pub enum Choice {
    Plan(Plan),
    Any,
    Nothing,
}

// 01's E = n − D + b: the sum of two bytes, so that twice E and E + b have room in 16 bits. An accepted crew has D at
// most n.
fn bound(crew: Crew) -> u16
    ensures { Bounded crew result }
{
    u16::from(crew.n.saturating_sub(crew.d)) + u16::from(crew.b)
}

fn any_if(enough: bool) -> Choice
    ensures { choice_as result ≡ any_if enough }
{
    if enough { Choice::Any } else { Choice::Nothing }
}

// Classes 1 and 2: a plan that alone is backed; else 'any' goes by the slots that count.
fn answer_below_three(backed: Plans, enough: bool) -> Choice
    ensures { AnsweredAlike (backing_as backed) enough (choice_as result) }
{
    match backed {
        Plans::Sole(plan) => Choice::Plan(plan),
        Plans::Nothing | Plans::Several(_) => any_if(enough),
    }
}

// Class 3: several plans that are backed give 'any' as well, whatever counts. There 01 has two answers, and so two
// functions.
fn answer_three(backed: Plans, enough: bool) -> Choice
    ensures { choice_as result ≡ answer three (backing_as backed) enough }
{
    match backed {
        Plans::Several(_) => Choice::Any,
        Plans::Nothing | Plans::Sole(_) => answer_below_three(backed, enough),
    }
}

// Selection in class 1: backed are the plans that more than E slots vote for.
fn choose_one(crew: Crew, columns: &Columns) -> Choice
    ensures { (h : ℕ → List Entry) → choice_as result ≡ selection one crew (polled columns.now h (slots_of crew)) }
{
    let slots = Slots::of(crew);
    let e = bound(crew);
    let arrivals = counts::count_present(columns, slots);
    let backed = counts::find_plans(columns, &columns.present, slots, e + 1);
    answer_below_three(backed, 2 * e < arrivals)
}

// Selection in class 2: backed are the votes of more than b possible slots.
fn choose_two(crew: Crew, columns: &Columns) -> Choice
    ensures { (h : ℕ → List Entry) → choice_as result ≡ selection two crew (polled columns.now h (slots_of crew)) }
{
    let slots = Slots::of(crew);
    let b = u16::from(crew.b);
    let e = bound(crew);
    let arrivals = counts::count_present(columns, slots);
    // Class 2 asks for no lister, so no history is looked at.
    let needed = Needed {
        slots,
        phases: 0,
        supporters: e + 1,
        listers: 0,
    };
    let possible = counts::mark_with_needed(columns, &[], needed);
    let backed = counts::find_plans(columns, &possible, slots, b + 1);
    answer_below_three(backed, e + b < arrivals)
}

// Selection in class 3: backed is the vote of a possible slot where more than b slots list it at the slot's stamp. Of
// what is needed two numbers are other than in class 2: a function for the three lines before would be no plainer.
fn choose_three(crew: Crew, phase: u8, columns: &Columns, histories: &[Plan]) -> Choice
    ensures { choice_as result ≡ selection three crew
        (polled columns.now (listed_in histories.now phase) (slots_of crew)) }
{
    let slots = Slots::of(crew);
    let b = u16::from(crew.b);
    let e = bound(crew);
    let needed = Needed {
        slots,
        phases: phase,
        supporters: e + 1,
        listers: b + 1,
    };
    let backing = counts::mark_with_needed(columns, histories, needed);
    // Of the slots that back their vote each plan is found, so one is enough.
    let backers = Columns {
        present: backing,
        ..*columns
    };
    let backed = counts::find_plans(&backers, &backing, slots, 1);
    answer_three(
        backed,
        e < counts::count_stamped(columns, slots, Node::UNSTAMPED),
    )
}

// What selection answers, by the crew's class. `phase` is the coming one, before which the histories have a place for
// every phase.
pub fn choose(crew: Crew, phase: u8, columns: &Columns, histories: &[Plan]) -> Choice
    ensures { (h : ℕ → List Entry) → Histories crew histories.now phase h
        → choice_as result ≡ selection (class_of crew) crew (polled columns.now h (slots_of crew)) }
{
    match crew.class {
        Crew::CLASS_ONE => choose_one(crew, columns),
        Crew::CLASS_TWO => choose_two(crew, columns),
        _ => choose_three(crew, phase, columns, histories),
    }
}

// What a node of this crew takes for 'any': the vote of most slots, the least plan on a tie.
fn any_plan(crew: Crew, columns: &Columns) -> Plan
    ensures { (h : ℕ → List Entry) → result ≡ any_plan crew (polled columns.now h (slots_of crew)) }
{
    let slots = Slots::of(crew);
    let most = counts::most_votes(columns, slots);
    counts::find_plans(columns, &columns.present, slots, most).least()
}

// What a node takes on an answer: the plan, or 0 for 'none'.
fn take_on(crew: Crew, choice: Choice, columns: &Columns) -> Plan
    ensures { (h : ℕ → List Entry) → result ≡ taken_on crew
        (polled columns.now h (slots_of crew)) (choice_as choice) }
{
    match choice {
        Choice::Plan(plan) => plan,
        Choice::Any => any_plan(crew, columns),
        Choice::Nothing => Node::NO_PLAN,
    }
}

// The plan that a node selects, 0 where it takes none: 01's number, as the record has it that takes it, and so below.
pub fn select(crew: Crew, phase: u8, columns: &Columns, histories: &[Plan]) -> Plan
    ensures { (h : ℕ → List Entry) → Histories crew histories.now phase h
        → result ≡ taken (class_of crew) crew (polled columns.now h (slots_of crew)) }
{
    let choice = choose(crew, phase, columns, histories);
    take_on(crew, choice, columns)
}

// The plan that more than half of c + b slots hold, 0 where there is none. Which slots are present is settled before:
// those of the phase's validators. Their stamps play no part.
pub fn validate(crew: Crew, columns: &Columns) -> Plan
    ensures { (stamps : List ℕ) (h : ℕ → List Entry) → result ≡ validated crew
        (polled (record columns.now { stamps = stamps }) h (slots_of crew)) }
{
    let slots = Slots::of(crew);
    let half = (u16::from(crew.c) + u16::from(crew.b)) / 2;
    counts::find_plans(columns, &columns.present, slots, half + 1).least()
}

// The least plan that at least D slots hold, 0 where there is none. In classes 2 and 3 only slots count whose plan was
// validated in this phase.
pub fn decide(crew: Crew, phase: u8, columns: &Columns) -> Plan
    ensures { (h : ℕ → List Entry) → result ≡ decision (class_of crew) crew phase
        (polled columns.now h (slots_of crew)) }
{
    let slots = Slots::of(crew);
    let needed = u16::from(crew.d);
    if crew.class == Crew::CLASS_ONE {
        return counts::find_plans(columns, &columns.present, slots, needed).least();
    }
    let fresh = counts::mark_stamped(columns, slots, phase);
    counts::find_plans(columns, &fresh, slots, needed).least()
}
