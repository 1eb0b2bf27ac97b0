// Asking for the coming selection, telling the slots that count, and taking a round: from an inbox's bytes to the next
// record.
// What each answers stands in specs/Asking.antt, specs/Marking.antt and specs/Taking.antt, what private functions ask
// and promise in specs/Steps.antt. Crate inbox walks the inbox into columns, crate tally runs the rules over these:
// what is behind the walk has no inbox in its hands.
#![tactic(auto)]

ghost use Rattle.std.specs.Prelude.{◌≡◌, false, List, ℕ, ◌<◌, ◌≤◌, get_or};
ghost use Rattle.wire.specs.Entry.{Entry};
ghost use Rattle.wire.specs.Sizes.{last_phase, spent_phase};
ghost use Rattle.wire.specs.Marks.{marks_of};
ghost use Rattle.crew.specs.Parts.{most_nodes};
ghost use Rattle.inbox.specs.Columns.{Spoken, polled};
ghost use Rattle.tally.specs.Rules.{slots_of, choice_as};
ghost use Rattle.rounds.specs.Taking.{
  after_selection,
  after_validation,
  after_decision,
  TakenFrom,
};
ghost use Rattle.rounds.specs.Steps.{
  OwnInbox,
  Walkable,
  Roomy,
  Heard,
  Listed,
  ready_answer,
  ready_of,
  ruled,
  outcome_of,
  marks_with,
  plan_if,
  plan_in,
  after_plan,
};
ghost use Rattle.rounds.specs.Asking.{ask_answer, ask_of};
ghost use Rattle.rounds.specs.Marking.{marking_answer, marking_of};

use crew::{Crew, MOST_NODES};
use inbox::Columns;
use message::{Header, SLOT};
use node::Node;
use tally::Choice;
use wire::{LAST_PHASE, PHASES, Plan};

// How many places the flat array of histories has: one for each slot and phase; or few, which are enough for a small
// crew or an early phase, and are sooner cleared.
const ALL_PLACES: usize = MOST_NODES * PHASES;

const FEW_PLACES: usize = ALL_PLACES / 8;

// Why a round is not taken, or a selection or the slots not told; `take_number` in specs/Taking.antt has 01's numbers.
#[derive(Clone, Copy, PartialEq, Eq, Debug)]
pub enum TakeRefusal {
    Unsound,
    Spent,
    // The inbox has another length than the crew's.
    Inbox,
}

// A selection that comes to no plan leaves the vote and the history as they are.
fn after_selection(node: &mut Node, plan: Plan)
    requires { node.old.phase < spent_phase }
    ensures { node.new ≡ after_selection node.old plan }
{
    node.round = node::round_after(node.crew.class, Node::SELECTION);
    node.select = plan;
    if plan != Node::NO_PLAN {
        node.vote = plan;
        node.history[usize::from(node.phase)] = plan;
    }
}

// A validation that comes to no plan takes the vote back to the base, not to what was selected.
fn after_validation(node: &mut Node, plan: Plan)
    ensures { node.new ≡ after_validation node.old plan }
{
    node.round = node::round_after(node.crew.class, Node::VALIDATION);
    if plan == Node::NO_PLAN {
        node.vote = node.base;
    } else {
        node.vote = plan;
        node.base = plan;
        node.stamp = node.phase;
    }
}

// A result stands for good: a later decision does not change it.
fn after_decision(node: &mut Node, plan: Plan)
    requires { node.old.phase < spent_phase }
    ensures { node.new ≡ after_decision node.old plan }
{
    node.phase += 1;
    node.round = node::round_after(node.crew.class, Node::DECISION);
    if node.result == Node::NO_PLAN {
        node.result = plan;
    }
}

// A plan as an answer of selection; 0 is none. No `From`: both types are other crates'.
fn planned(plan: Plan) -> Choice
    ensures { choice_as result ≡ plan_if plan }
{
    if plan == Node::NO_PLAN {
        Choice::Nothing
    } else {
        Choice::Plan(plan)
    }
}

// A round that comes: of which crew, with what header on its messages, and whether its selection is only asked for: a
// flag, since one definition, `ruled`, says what both come to.
#[derive(Clone, Copy, PartialEq, Eq, Debug)]
struct Round {
    crew: Crew,
    header: Header,
    asked: bool,
}

// What the rule of the round says of the columns: a plan or none, and where the selection is only asked for, 'any' as
// well.
fn rule_on_columns(round: Round, columns: &Columns, histories: &[Plan]) -> Choice
    ensures { (h : ℕ → List Entry) → Listed round histories.now h
        → choice_as result ≡ ruled round (polled columns.now h (slots_of round.crew)) }
{
    let crew = round.crew;
    let phase = round.header.phase;
    match round.header.kind {
        message::SELECTION if round.asked => tally::choose(crew, phase, columns, histories),
        message::SELECTION => planned(tally::select(crew, phase, columns, histories)),
        message::VALIDATION => planned(tally::validate(crew, columns)),
        _ => planned(tally::decide(crew, phase, columns)),
    }
}

// Of the slots that are present, those whose nodes speak in the round: in a validation only the phase's validators do.
fn speaking(round: Round, present: [bool; MOST_NODES]) -> [bool; MOST_NODES]
    ensures { Spoken round.crew round.header present result }
{
    if round.header.kind == message::VALIDATION {
        return crew::validators_among(round.crew, round.header.phase, present);
    }
    present
}

// What the round comes to. The inbox is walked once, into columns, and the rule runs over the slots in them that count.
fn outcome_with(round: Round, inbox: &[u8], histories: &mut [Plan]) -> Choice
    requires { Walkable round inbox.now histories.old }
    ensures { choice_as result ≡ outcome_of round inbox.now }
{
    let mut columns = Columns::empty();
    inbox::read_slots(inbox, round.header, &mut columns, histories);
    let counting = Columns {
        present: speaking(round, columns.present),
        ..columns
    };
    rule_on_columns(round, &counting, histories)
}

// With so many places for histories, which are as many as the round takes. Few are sooner cleared.
fn outcome_in_places<const PLACES: usize>(round: Round, inbox: &[u8], empty: Plan) -> Choice
    requires { Roomy PLACES round inbox.now empty }
    ensures { choice_as result ≡ outcome_of round inbox.now }
{
    let mut histories = [empty; PLACES];
    outcome_with(round, inbox, &mut histories)
}

// What the round comes to, with as many places for histories as it takes: only a selection in class 3 looks at them.
// `empty` is what an empty place holds, where there are any: see `last_entry`.
fn outcome(round: Round, inbox: &[u8], empty: Plan) -> Choice
    requires { Heard round inbox.now empty }
    ensures { choice_as result ≡ outcome_of round inbox.now }
{
    let crew = round.crew;
    let header = round.header;
    let lists = crew.class == Crew::CLASS_THREE && header.kind == message::SELECTION;
    if !lists {
        return outcome_in_places::<0>(round, inbox, empty);
    }
    if usize::from(header.phase) * usize::from(crew.n) <= FEW_PLACES {
        return outcome_in_places::<FEW_PLACES>(round, inbox, empty);
    }
    outcome_in_places::<ALL_PLACES>(round, inbox, empty)
}

// What the history has at the last phase: before a selection, nothing. It fills the places of the histories: a number
// of the record, and no constant (docs/DECISIONS.md says what that was for). To find the place by the record's phase,
// the compiler would copy the history first.
fn last_entry(node: &Node) -> Plan
    ensures { result ≡ get_or node.now.history last_phase 0 }
{
    node.history[usize::from(LAST_PHASE)]
}

// The plan of an answer, 0 where it has none: `planned` the other way.
fn plan_in(choice: Choice) -> Plan
    ensures { result ≡ plan_in (choice_as choice) }
{
    match choice {
        Choice::Plan(plan) => plan,
        _ => Node::NO_PLAN,
    }
}

// The record after its coming round, which came to this plan.
fn after_plan(node: &mut Node, plan: Plan)
    requires { node.old.phase < spent_phase }
    ensures { node.new ≡ after_plan node.old plan }
{
    match node.round {
        Node::SELECTION => after_selection(node, plan),
        Node::VALIDATION => after_validation(node, plan),
        _ => after_decision(node, plan),
    }
}

// A node's coming round with this inbox, or why there is none to take: round k takes kind k.
fn coming(node: &Node, inbox: &[u8], asked: bool) -> Result<Round, TakeRefusal>
    ensures { ready_answer result ≡ ready_of node.now inbox.now asked }
{
    if !node.is_sound() {
        return Err(TakeRefusal::Unsound);
    }
    if node.phase >= Node::SPENT {
        return Err(TakeRefusal::Spent);
    }
    if inbox.len() != SLOT * usize::from(node.crew.n) {
        return Err(TakeRefusal::Inbox);
    }
    Ok(Round {
        crew: node.crew,
        header: Header {
            kind: u16::from(node.round),
            run: node.run,
            phase: node.phase,
        },
        asked,
    })
}

// Takes the coming round with this inbox: the record becomes the next one. A refusal leaves it as it was.
pub fn take(node: &mut Node, inbox: &[u8]) -> Result<(), TakeRefusal>
    ensures { TakenFrom node.old inbox.now result node.new }
{
    let round = coming(node, inbox, false)?;
    let choice = outcome(round, inbox, last_entry(node));
    after_plan(node, plan_in(choice));
    Ok(())
}

// Tells the coming selection with this inbox. Refused as taking the round is, and outside a selection.
pub fn ask(node: &Node, inbox: &[u8]) -> Result<Choice, TakeRefusal>
    ensures { ask_answer result ≡ ask_of node.now inbox.now }
{
    if node.round != Node::SELECTION {
        return Err(TakeRefusal::Unsound);
    }
    let round = coming(node, inbox, true)?;
    Ok(outcome(round, inbox, last_entry(node)))
}

// The marks of the first n slots, by the column of presence: slot q has the bit of weight 2 to the q. A range, as the
// weight goes by q.
fn marks_in(present: &[bool; MOST_NODES], n: usize) -> u32
    requires { n ≤ most_nodes }
    ensures { result ≡ marks_of (λ q. get_or present.now q false) n }
{
    let mut marks = 0;
    for q in 0..n {
        marks += u32::from(present[q]) << q;
    }
    marks
}

// The marks of a round's slots. The inbox is walked as for taking the round, but with no room for histories: nobody
// looks at them here.
fn marks_with(round: Round, inbox: &[u8]) -> u32
    requires { OwnInbox round.crew inbox.now }
    ensures { result ≡ marks_with round inbox.now }
{
    let mut columns = Columns::empty();
    inbox::read_slots(inbox, round.header, &mut columns, &mut []);
    let counting = speaking(round, columns.present);
    marks_in(&counting, usize::from(round.crew.n))
}

// Tells which slots count in the coming round with this inbox: slot q has the bit of weight 2 to the q. Refused as
// taking the round is.
pub fn marks(node: &Node, inbox: &[u8]) -> Result<u32, TakeRefusal>
    ensures { marking_answer result ≡ marking_of node.now inbox.now }
{
    Ok(marks_with(coming(node, inbox, false)?, inbox))
}
