// The nodes of a drill: starting them, and a whole round among them, over the engine's promises alone.
// specs/Start.antt says what a drill begins with, specs/Round.antt what a go does. Crate drill follows a script.
#![tactic(auto)]

ghost use Rattle.std.specs.Prelude.{◌≡◌, ◌<◌, ◌≤◌, cond, get_or, length, leb};
ghost use Rattle.wire.specs.Outcome.{value_or};
ghost use Rattle.wire.specs.Below.{table};
ghost use Rattle.wire.specs.Sizes.{spent_phase};
ghost use Rattle.crew.specs.Parts.{most_nodes};
ghost use Rattle.message.specs.Layout.{slot_size};
ghost use Rattle.node.specs.Record.{blank};
ghost use Rattle.node.specs.Place.{phase_after};
ghost use Rattle.node.specs.Sending.{coming_buffer_of};
ghost use Rattle.node.specs.Starting.{start_of};
ghost use Rattle.aisle.specs.Round.{
  say_buffer,
  delivered,
  node_after,
  results_of,
  go_of,
  gone,
};
ghost use Rattle.aisle.specs.Promises.{AllSent, Fillable, InboxFrom, Ready};
ghost use Rattle.aisle.specs.Start.{begun_of};

use crew::{Crew, MOST_NODES};
use message::SLOT;
use node::Node;
use pending::{Pending, Waiting};
use wire::{PHASES, Plan};

// A drill is one run of the algorithm.
const RUN: u32 = 1;
// The inbox of the largest crew.
const INBOX: usize = SLOT * MOST_NODES;

// What a drill never changes.
#[derive(Clone, Copy, PartialEq, Eq, Debug)]
pub struct Setup {
    pub crew: Crew,
    // Which nodes are honest: those with an initial plan. It stands apart from the records, which change.
    pub honest: [bool; MOST_NODES],
}

// All that a drill changes, as it stands between two lines.
#[derive(Clone, Copy, PartialEq, Eq, Debug)]
pub struct Moment {
    // The coming round. The drill counts by itself: all the nodes may be dishonest.
    pub phase: u8,
    pub round: u8,
    // The honest nodes' records; for any other number the blank record, as its start was refused.
    pub nodes: [Node; MOST_NODES],
    // The cuts and says that wait for the next go, by receivers.
    pub pending: [Pending; MOST_NODES],
}

#[derive(Clone, Copy, PartialEq, Eq, Debug)]
pub struct State {
    pub setup: Setup,
    pub moment: Moment,
}

// Writes the message of a say to the front of a slot. One that is refused, for its stamp, writes nothing.
fn write_say(slot: &mut [u8], moment: &Moment, say: Waiting)
    ensures { slot.new ≡ say_buffer moment.now.phase moment.now.round say.plan say.stamp slot.old }
{
    if say.plan == Node::NO_PLAN {
        return;
    }
    let phase = moment.phase;
    let _ = match moment.round {
        Node::SELECTION => {
            let history = [Node::NO_PLAN; PHASES];
            writer::write_selection(slot, RUN, phase, say.plan, say.stamp, &history, 0)
        }
        Node::VALIDATION => writer::write_validation(slot, RUN, phase, say.plan),
        _ => writer::write_decision(slot, RUN, phase, say.plan, say.stamp),
    };
}

// Writes an honest node's coming message to the front of a slot: nothing where it is silent.
fn write_message(slot: &mut [u8], node: &Node, honest: bool)
    ensures { slot.new ≡ cond honest (coming_buffer_of node.now slot.old) slot.old }
{
    if honest {
        let _ = node.write(slot);
    }
}

// What all honest nodes send in the coming round: each one's message, written once, at the front of its slot.
fn messages(nodes: &[Node; MOST_NODES], honest: &[bool; MOST_NODES]) -> [u8; INBOX]
    ensures { AllSent nodes.now honest.now result }
{
    let mut sent = [0; INBOX];
    for sender in 0..MOST_NODES {
        let at = SLOT * sender;
        write_message(&mut sent[at..at + SLOT], &nodes[sender], honest[sender]);
    }
    sent
}

// Makes of a slot with what its sender sends to everybody what reaches one receiver.
fn deliver(slot: &mut [u8], honest: bool, waiting: Waiting, moment: &Moment)
    requires { length slot.old ≡ slot_size }
    ensures { slot.new ≡ delivered honest waiting moment.now.phase moment.now.round slot.old }
{
    if waiting.cut {
        slot.fill(0);
    } else if !honest {
        write_say(slot, moment, waiting);
    }
}

// Makes of all that is sent the inbox of the receiver for which this waits.
fn deliver_all(inbox: &mut [u8], setup: &Setup, moment: &Moment, pending: &Pending)
    requires { Fillable setup.now inbox.old }
    ensures { InboxFrom setup.now moment.now inbox.old pending.now inbox.new }
{
    for sender in 0..usize::from(setup.crew.n) {
        let at = SLOT * sender;
        let waiting = pending.waiting(sender);
        deliver(
            &mut inbox[at..at + SLOT],
            setup.honest[sender],
            waiting,
            moment,
        );
    }
}

// It stays here, beside `node::round_after`: a public function asks nothing of its caller, and the phase after the
// decision of phase 255 is no byte.
fn phase_after(phase: u8, round: u8) -> u8
    requires { phase < spent_phase }
    ensures { result ≡ phase_after phase round }
{
    phase + u8::from(round == Node::DECISION)
}

// The records after a round: all that is sent in it comes from the records as they are before it. A node that is not
// honest has no inbox, and its record stays.
fn records_after(setup: &Setup, moment: &Moment) -> [Node; MOST_NODES]
    requires { setup.now.crew.n ≤ most_nodes }
    ensures { result ≡ table (node_after setup.now moment.now) most_nodes }
{
    let size = SLOT * usize::from(setup.crew.n);
    let sent = messages(&moment.nodes, &setup.honest);
    let mut nodes = moment.nodes;
    for (receiver, node) in nodes.iter_mut().enumerate() {
        if setup.honest[receiver] {
            let mut inbox = sent;
            deliver_all(&mut inbox, setup, moment, &moment.pending[receiver]);
            // A round that is refused leaves the record as it is.
            let _ = rounds::take(node, &inbox[..size]);
        }
    }
    nodes
}

fn whole_round(setup: &Setup, moment: &Moment) -> Moment
    requires { Ready setup.now moment.now }
    ensures { result ≡ go_of setup.now moment.now }
{
    Moment {
        phase: phase_after(moment.phase, moment.round),
        round: node::round_after(setup.crew.class, moment.round),
        nodes: records_after(setup, moment),
        pending: [Pending::empty(); MOST_NODES],
    }
}

// A go: a whole round, or nothing where no round can be run.
pub fn go(setup: Setup, moment: Moment) -> Moment
    ensures { result ≡ gone setup moment }
{
    if usize::from(setup.crew.n) <= MOST_NODES && moment.phase < Node::SPENT {
        return whole_round(&setup, &moment);
    }
    moment
}

// The results of n nodes, 0 where there is none: a range, since a loop over all was slower (docs/DECISIONS.md).
pub fn results_of(nodes: [Node; MOST_NODES], n: usize) -> [Plan; MOST_NODES]
    ensures { result ≡ results_of nodes n }
{
    let mut results = [Node::NO_PLAN; MOST_NODES];
    for i in 0..n.min(MOST_NODES) {
        results[i] = nodes[i].result;
    }
    results
}

fn honest_of(plans: &[Plan; MOST_NODES]) -> [bool; MOST_NODES]
    ensures { result ≡ table (λ i. leb 1 (get_or plans.now i 0)) most_nodes }
{
    plans.map(|plan| wire::is_plan(plan))
}

fn start_node(crew: Crew, i: usize, plan: Plan) -> Node
    requires { i < most_nodes }
    ensures { result ≡ value_or blank (start_of crew i 1 plan) }
{
    Node::start(crew, i as u8, RUN, plan).unwrap_or(node::blank_node())
}

fn start_nodes(crew: Crew, plans: &[Plan; MOST_NODES]) -> [Node; MOST_NODES]
    ensures { result ≡ table (λ i. value_or blank (start_of crew i 1 (get_or plans.now i 0))) most_nodes }
{
    let mut nodes = [node::blank_node(); MOST_NODES];
    for (i, node) in nodes.iter_mut().enumerate() {
        *node = start_node(crew, i, plans[i]);
    }
    nodes
}

// The aisle before its first round: each node started with its plan.
pub fn begin(crew: Crew, plans: [Plan; MOST_NODES]) -> State
    ensures { result ≡ begun_of crew plans }
{
    State {
        setup: Setup {
            crew,
            honest: honest_of(&plans),
        },
        moment: Moment {
            phase: Node::FIRST_PHASE,
            round: Node::SELECTION,
            nodes: start_nodes(crew, &plans),
            pending: [Pending::empty(); MOST_NODES],
        },
    }
}
