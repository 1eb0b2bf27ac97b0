// The board examples of document 01 that are not proved as theorems, and further ones, which go to the bounds of each
// rule from both sides. Each is put to the engine, and what it answers is compared with the file stdout beside this
// folder.
#![tactic(auto)]

use crew::{Crew, MOST_NODES};
use message::SLOT;
use node::Node;
use rounds::TakeRefusal;
use std::{fmt, io};
use tally::Choice;
use wire::{PHASES, Plan};
use writer::WriteRefusal;

// Room for the inbox of any crew, which is lent the front that it needs.
const INBOX: usize = SLOT * MOST_NODES;

// The run of all records and messages here.
const RUN: u32 = 1;

// What the records here began with: a plan that no example has in a slot.
const FIRST_PLAN: Plan = 4;

// What a slot says: in phase 1 and in validations nothing has a stamp. Of its history there is only what it lists at
// phases 1 and 2, where 0 is no entry.
#[derive(Clone, Copy, PartialEq, Eq, Debug)]
struct Ballot {
    plan: Plan,
    stamp: Option<u8>,
    first: Plan,
    second: Plan,
}

// An example's ballots come from their plans alone, with their stamps, or with what they list as well.

fn vote(plan: Plan) -> Ballot {
    Ballot {
        plan,
        stamp: None,
        first: Node::NO_PLAN,
        second: Node::NO_PLAN,
    }
}

fn stamped((plan, stamp): (Plan, u8)) -> Ballot {
    listed((plan, stamp, Node::NO_PLAN, Node::NO_PLAN))
}

fn listed((plan, stamp, first, second): (Plan, u8, Plan, Plan)) -> Ballot {
    Ballot {
        plan,
        stamp: Some(stamp),
        first,
        second,
    }
}

// As 01 writes it: a ballot without a stamp is its plan alone.
impl fmt::Display for Ballot {
    fn fmt<W: fmt::Write>(&self, f: &mut fmt::Formatter<W>) -> fmt::Result {
        let Some(stamp) = self.stamp else {
            return write!(f, "{}", self.plan);
        };
        write!(f, "({},{stamp}", self.plan)?;
        if self.first != Node::NO_PLAN {
            write!(f, " 1:{}", self.first)?;
        }
        if self.second != Node::NO_PLAN {
            write!(f, " 2:{}", self.second)?;
        }
        write!(f, ")")
    }
}

// The end of a line: a plan, or none.
#[derive(Clone, Copy, PartialEq, Eq, Debug)]
struct Shown(Plan);

impl fmt::Display for Shown {
    fn fmt<W: fmt::Write>(&self, f: &mut fmt::Formatter<W>) -> fmt::Result {
        match self.0 {
            Node::NO_PLAN => write!(f, "none"),
            plan => write!(f, "{plan}"),
        }
    }
}

// A crew in the papers' order of its numbers. Boundary's `crew_of` stays private: it is for what a call from C hands
// over.
fn crew_of(class: u8, n: u8, b: u8, f: u8, d: u8, c: u8) -> Crew {
    Crew {
        class,
        n,
        b,
        f,
        d,
        c,
    }
}

// The start of a line: a crew as 01 writes it, and behind that the size of its group.
fn show_crew(rt: &impl Print, crew: Crew) -> io::Result<()> {
    print!(rt;
        "crew {},{},{},{},{},{}",
        crew.class, crew.n, crew.b, crew.f, crew.d, crew.c
    )
}

// One line: what accepting a crew answers.
fn accept(rt: &impl Print, crew: Crew) -> io::Result<()> {
    show_crew(rt, crew)?;
    match crew::accept(crew) {
        Ok(()) => println!(rt; ": accepted"),
        Err(why) => println!(rt; ": {}", boundary::crew_number(why)),
    }
}

// The message that a ballot is in a node's coming round. A record's own and a say's are written by round as well, in
// crates node and aisle: each of other fields, so that one function for the three would take a closure for each.
fn put_message(slot: &mut [u8], node: &Node, ballot: Ballot) -> Result<usize, WriteRefusal> {
    let phase = node.phase;
    let stamp = ballot.stamp.unwrap_or(Node::UNSTAMPED);
    match node.round {
        Node::SELECTION => {
            let mut history = [Node::NO_PLAN; PHASES];
            history[1] = ballot.first;
            history[2] = ballot.second;
            writer::write_selection(slot, RUN, phase, ballot.plan, stamp, &history, phase)
        }
        Node::VALIDATION => writer::write_validation(slot, RUN, phase, ballot.plan),
        _ => writer::write_decision(slot, RUN, phase, ballot.plan, stamp),
    }
}

// Each ballot in its slot, and shown. A slot whose ballot is not written stays empty.
fn fill(rt: &impl Print, inbox: &mut [u8], node: &Node, ballots: &[Ballot]) -> io::Result<()> {
    for (slot, &ballot) in inbox.chunks_exact_mut(SLOT).zip(ballots) {
        let _written = put_message(slot, node, ballot);
        print!(rt; " {ballot}")?;
    }
    Ok(())
}

// The inbox of n slots.
fn front(inbox: &[u8], n: u8) -> &[u8] {
    let end = inbox.len().min(SLOT * usize::from(n));
    &inbox[..end]
}

// A node of the crew, for which this round comes next: two numbers, as a record has them.
fn node_at(crew: Crew, phase: u8, round: u8) -> Node {
    let mut node = Node::start(crew, 0, RUN, FIRST_PLAN).unwrap_or(node::blank_node());
    node.phase = phase;
    node.round = round;
    node
}

// What asking for the selection answers; for 'any' also the plan that the node takes.
fn show_asked(rt: &impl Print, mut node: Node, inbox: &[u8]) -> io::Result<()> {
    match rounds::ask(&node, inbox) {
        Ok(Choice::Plan(plan)) => println!(rt; ": {}", Shown(plan)),
        Ok(Choice::Any) => {
            // It is taken, as it was asked for; one that is not leaves the record as it was.
            let _taken = rounds::take(&mut node, inbox);
            println!(rt; ": any, taken as {}", Shown(node.select))
        }
        Ok(Choice::Nothing) => println!(rt; ": {}", Shown(Node::NO_PLAN)),
        Err(_) => println!(rt; ": refused"),
    }
}

// One line: what these ballots select. In phase 1 votes have no stamps.
fn select(rt: &impl Print, crew: Crew, phase: u8, ballots: &[Ballot]) -> io::Result<()> {
    show_crew(rt, crew)?;
    print!(rt; "{}", if phase == 1 { ", votes" } else { "," })?;
    let node = node_at(crew, phase, Node::SELECTION);
    let mut inbox = [0u8; INBOX];
    fill(rt, &mut inbox, &node, ballots)?;
    show_asked(rt, node, front(&inbox, crew.n))
}

// The plan that a round came to, where it was taken.
fn show_taken(rt: &impl Print, taken: Result<(), TakeRefusal>, plan: Plan) -> io::Result<()> {
    match taken {
        Ok(()) => println!(rt; ": {}", Shown(plan)),
        Err(_) => println!(rt; ": refused"),
    }
}

// The plan that was validated in this phase.
fn validated_in(node: &Node, phase: u8) -> Plan {
    if node.stamp == phase {
        node.base
    } else {
        Node::NO_PLAN
    }
}

// One line: which of these plans is validated, in phase 1.
fn validate(rt: &impl Print, crew: Crew, ballots: &[Ballot]) -> io::Result<()> {
    show_crew(rt, crew)?;
    print!(rt; ", validating")?;
    let mut node = node_at(crew, 1, Node::VALIDATION);
    let mut inbox = [0u8; INBOX];
    fill(rt, &mut inbox, &node, ballots)?;
    let taken = rounds::take(&mut node, front(&inbox, crew.n));
    show_taken(rt, taken, validated_in(&node, 1))
}

// One line: which of these votes is decided.
fn decide(rt: &impl Print, crew: Crew, phase: u8, ballots: &[Ballot]) -> io::Result<()> {
    show_crew(rt, crew)?;
    print!(rt; ", deciding in phase {phase}")?;
    let mut node = node_at(crew, phase, Node::DECISION);
    let mut inbox = [0u8; INBOX];
    fill(rt, &mut inbox, &node, ballots)?;
    let taken = rounds::take(&mut node, front(&inbox, crew.n));
    show_taken(rt, taken, node.result)
}

// 01's board, but for what is proved. All nodes are the group.
fn show_board(rt: &impl Print) -> io::Result<()> {
    accept(rt, crew_of(1, 4, 0, 1, 3, 4))?;
    accept(rt, crew_of(9, 0, 0, 0, 0, 0))?;
    select(rt, crew_of(3, 4, 1, 0, 3, 4), 1, &[5, 5].map(vote))?;
    select(
        rt,
        crew_of(2, 5, 1, 0, 4, 5),
        2,
        &[(5, 1), (6, 0), (6, 0)].map(stamped),
    )
}

// The bounds of a group, from both sides.
fn show_groups(rt: &impl Print) -> io::Result<()> {
    // Class 1: all nodes and nothing else.
    accept(rt, crew_of(1, 4, 0, 1, 3, 3))?;
    accept(rt, crew_of(1, 4, 0, 1, 3, 5))?;
    // Class 2: b nodes are too few, one more is enough; no more than n.
    accept(rt, crew_of(2, 5, 1, 0, 4, 1))?;
    accept(rt, crew_of(2, 5, 1, 0, 4, 2))?;
    accept(rt, crew_of(2, 5, 1, 0, 4, 6))?;
    // Class 3: 3b + 2f nodes are too few, one more is enough; no more than n.
    accept(rt, crew_of(3, 7, 1, 1, 4, 5))?;
    accept(rt, crew_of(3, 7, 1, 1, 4, 6))?;
    accept(rt, crew_of(3, 7, 1, 1, 4, 8))?;
    // D comes first.
    accept(rt, crew_of(2, 5, 1, 0, 3, 1))
}

// The bounds of selection, from both sides. E is 2 in each of these crews.
fn show_selections(rt: &impl Print, one: Crew, two: Crew, three: Crew) -> io::Result<()> {
    // Class 1: E slots back nothing, not even as a majority of what came; 2E slots are too few for 'any'.
    select(rt, one, 1, &[7, 7, 9].map(vote))?;
    select(rt, one, 1, &[7, 7, 9, 8].map(vote))?;
    // Class 2: E + 1 slots make a ballot possible, E do not, and a stamp equal to its own does not count among them.
    select(rt, two, 2, &[(5, 1), (5, 1), (6, 0)].map(stamped))?;
    select(rt, two, 2, &[(5, 1), (5, 1), (6, 1)].map(stamped))?;
    // E + b slots are too few for 'any', one more is enough.
    select(rt, two, 1, &[5, 6, 7].map(vote))?;
    select(rt, two, 1, &[8, 7, 5, 5].map(vote))?;
    // Class 3: E slots with stamp 0 are too few for 'any', however many count.
    select(rt, three, 2, &[(5, 0), (6, 0), (7, 1), (8, 1)].map(stamped))?;
    // The newest stamp does not win: 5 is listed at phase 2 by b slots, 6 at phase 1 by more.
    select(
        rt,
        three,
        3,
        &[(5, 2, 0, 5), (6, 1, 6, 0), (6, 1, 6, 0), (6, 0, 0, 0)].map(listed),
    )?;
    // Several backed plans: 'any' over all counting slots, though only E of them have stamp 0.
    select(
        rt,
        three,
        3,
        &[(5, 2, 6, 5), (6, 1, 6, 5), (6, 0, 0, 0), (6, 0, 0, 0)].map(listed),
    )
}

// Twice the count must pass c + b, whatever came.
fn show_validations(rt: &impl Print, two: Crew, three: Crew) -> io::Result<()> {
    validate(rt, two, &[5, 5, 5].map(vote))?;
    validate(rt, two, &[5, 5, 5, 5, 6].map(vote))?;
    validate(rt, three, &[6, 5, 5, 5].map(vote))?;
    // In phase 1 a group of 3 is nodes 3, 4 and 0: all of them are enough, two are not, whatever the others say.
    let in_turn = crew_of(2, 5, 1, 0, 4, 3);
    validate(rt, in_turn, &[5, 6, 6, 5, 5].map(vote))?;
    validate(rt, in_turn, &[5, 5, 5, 5, 6].map(vote))
}

// D slots, in class 1 with any stamp, in classes 2 and 3 with the phase as stamp; the least of several.
fn show_decisions(rt: &impl Print, one: Crew, two: Crew, three: Crew) -> io::Result<()> {
    decide(
        rt,
        one,
        2,
        &[(7, 0), (7, 1), (7, 0), (7, 0), (7, 0)].map(stamped),
    )?;
    decide(
        rt,
        one,
        2,
        &[(7, 0), (7, 0), (7, 0), (7, 0), (9, 0)].map(stamped),
    )?;
    decide(rt, two, 2, &[(5, 2), (5, 2), (5, 2), (5, 1)].map(stamped))?;
    decide(rt, three, 2, &[(5, 2), (5, 2), (5, 1)].map(stamped))?;
    decide(rt, three, 2, &[(5, 2), (5, 2), (5, 2), (5, 1)].map(stamped))?;
    decide(
        rt,
        crew_of(3, 32, 0, 0, 1, 32),
        1,
        &[(9, 1), (5, 1), (6, 1)].map(stamped),
    )
}

fn main(rt: HostRuntime) -> io::Result<()> {
    show_board(&rt)?;
    show_groups(&rt)?;
    let one = crew_of(1, 6, 1, 0, 5, 6);
    let two = crew_of(2, 5, 1, 0, 4, 5);
    let three = crew_of(3, 4, 1, 0, 3, 4);
    show_selections(&rt, one, two, three)?;
    show_validations(&rt, two, three)?;
    show_decisions(&rt, one, two, three)
}
