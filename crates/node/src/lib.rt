// A node: its whole state as one value, how it starts, whether a record is sound, and the message of its coming round.
// Each operation is what a definition says: specs/Starting.antt, specs/Soundness.antt and specs/Sending.antt.
#![tactic(auto)]

ghost use Rattle.std.specs.Prelude.{◌≡◌, ◌≤◌, drop};
ghost use Rattle.wire.specs.Sizes.{history_size};
ghost use Rattle.message.specs.Reading.{all_zero};
ghost use Rattle.writer.specs.Writing.{write_answer};
ghost use Rattle.node.specs.Place.{round_after};
ghost use Rattle.node.specs.Record.{blank, begun};
ghost use Rattle.node.specs.Soundness.{
  place_known,
  plans_known,
  stamp_known,
  first_unselected,
  sound,
};
ghost use Rattle.node.specs.Starting.{start_of, start_answer};
ghost use Rattle.node.specs.Promises.{Due};
ghost use Rattle.node.specs.Sending.{listed_phases, send_answer, Writes};
ghost use Rattle.node.specs.declared.StartRefusal.TheVariants.{Crew as CrewRefused};

use crew::{AcceptRefusal, Crew};
use wire::{LAST_PHASE, PHASES, Plan};
use writer::WriteRefusal;

// 01's node record. Any values may stand in it: `is_sound` says whether they are those of a node.
#[derive(Clone, Copy, PartialEq, Eq, Debug)]
pub struct Node {
    pub crew: Crew,
    // The node's own number, below the crew's n.
    pub own: u8,
    // Which run of the algorithm this is: messages of other runs do not count.
    pub run: u32,
    // The coming round: its phase and its number. The number is a byte and no enum, as the crew's class is: every 150
    // bytes are a record's image (theorem `image_of_record` of crate image), and `is_sound` says which are rounds.
    pub phase: u8,
    pub round: u8,
    pub vote: Plan,
    // The plan that was validated last, and the initial plan before that.
    pub base: Plan,
    // The phase in which base was validated, 0 while it is the initial plan.
    pub stamp: u8,
    // What the phase's selection gave, 0 for 'none'.
    pub select: Plan,
    // The plan that the node decided, 0 before it has.
    pub result: Plan,
    // The plan selected in each phase, 0 where none was; at 0 the initial plan.
    pub history: [Plan; PHASES],
}

// Why a start is refused; `start_number` in specs/Starting.antt has the papers' numbers.
#[derive(Clone, Copy, PartialEq, Eq, Debug)]
pub enum StartRefusal {
    // The crew is turned down.
    Crew(AcceptRefusal),
    // The own number is not below n.
    Own,
    NoPlan,
}

impl From<AcceptRefusal> for StartRefusal {
    ghost from_gives = { λ why refusal. refusal ≡ CrewRefused why };

    fn from(why: AcceptRefusal) -> StartRefusal {
        StartRefusal::Crew(why)
    }
}

// Why the coming message is not written; `send_number` in specs/Sending.antt has 01's numbers.
#[derive(Clone, Copy, PartialEq, Eq, Debug)]
pub enum SendRefusal {
    Unsound,
    Spent,
    // The buffer is shorter than the message.
    Short,
}

// The record of no node: all 0, and not sound. It stands where a record has yet to be started.
pub fn blank_node() -> Node
    ensures { result ≡ blank }
{
    Node {
        crew: crew::blank_crew(),
        own: 0,
        run: 0,
        phase: 0,
        round: 0,
        vote: Node::NO_PLAN,
        base: Node::NO_PLAN,
        stamp: Node::UNSTAMPED,
        select: Node::NO_PLAN,
        result: Node::NO_PLAN,
        history: [Node::NO_PLAN; PHASES],
    }
}

// The number of the round that follows a round: class 1 has no validation.
pub fn round_after(class: u8, round: u8) -> u8
    ensures { result ≡ round_after class round }
{
    match round {
        Node::SELECTION if class == Crew::CLASS_ONE => Node::DECISION,
        Node::SELECTION => Node::VALIDATION,
        Node::VALIDATION => Node::DECISION,
        _ => Node::SELECTION,
    }
}

// The record that a node begins with.
fn begin(crew: Crew, own: u8, run: u32, plan: Plan) -> Node
    ensures { result ≡ begun crew own run plan }
{
    let mut history = [Node::NO_PLAN; PHASES];
    history[0] = plan;
    Node {
        crew,
        own,
        run,
        phase: Node::FIRST_PHASE,
        round: Node::SELECTION,
        vote: plan,
        base: plan,
        stamp: Node::UNSTAMPED,
        select: Node::NO_PLAN,
        result: Node::NO_PLAN,
        history,
    }
}

// Whether a history has no plan from a phase on: its plans, joined bit by bit, come to none then. `all` would end at
// the first plan, and so take one at a time; as it is the compiler takes several at once.
fn is_empty_from(history: &[Plan; PHASES], phase: usize) -> bool
    requires { phase ≤ history_size }
    ensures { result ≡ all_zero (drop phase history.now) }
{
    history[phase..]
        .iter()
        .fold(0, |joined, plan| joined | *plan)
        == Node::NO_PLAN
}

impl Node {
    // Phases are counted from 1: in stamps and histories 0 stands for the time before the first.
    pub const FIRST_PHASE: u8 = 1;
    // A record that has passed its last phase stands here: it has no rounds left.
    pub const SPENT: u8 = LAST_PHASE + 1;
    // Plans are counted from 1, so that 0 can mean none. It is 01's number and no Option: messages and images have it.
    pub const NO_PLAN: Plan = 0;
    // The stamp of a plan that no phase has validated: 01's number too.
    pub const UNSTAMPED: u8 = 0;
    // Round 1: a plan is chosen among those voted for.
    pub const SELECTION: u8 = 1;
    // Round 2: the plan gets the phase's stamp where enough nodes chose it.
    pub const VALIDATION: u8 = 2;
    // Round 3: a plan with D votes is decided.
    pub const DECISION: u8 = 3;

    // Starts a node with its initial plan, or says why not.
    pub fn start(crew: Crew, own: u8, run: u32, plan: Plan) -> Result<Node, StartRefusal>
        ensures { start_answer result ≡ start_of crew own run plan }
    {
        crew::accept(crew)?;
        if own >= crew.n {
            return Err(StartRefusal::Own);
        }
        if !wire::is_plan(plan) {
            return Err(StartRefusal::NoPlan);
        }
        Ok(begin(crew, own, run, plan))
    }

    // The coming round is one that the class and the phase have.
    fn is_placed(&self) -> bool
        ensures { result ≡ place_known self.now }
    {
        matches!(self.phase, Node::FIRST_PHASE..=Node::SPENT)
            && matches!(self.round, Node::SELECTION..=Node::DECISION)
            && !(self.crew.class == Crew::CLASS_ONE && self.round == Node::VALIDATION)
            && (self.round == Node::SELECTION || self.phase <= LAST_PHASE)
    }

    // Vote, base and the initial plan, with which the history starts, are plans.
    fn has_plans(&self) -> bool
        ensures { result ≡ plans_known self.now }
    {
        wire::is_plan(self.vote) && wire::is_plan(self.base) && wire::is_plan(self.history[0])
    }

    // The stamp is an earlier phase, or this one once its validation is done.
    fn is_stamped(&self) -> bool
        ensures { result ≡ stamp_known self.now }
    {
        (self.stamp < self.phase || (self.stamp == self.phase && self.round == Node::DECISION))
            && (self.crew.class != Crew::CLASS_ONE || self.stamp == Node::UNSTAMPED)
    }

    // The first phase that has no selection yet. A phase may be any byte here, so the sum is taken wide.
    fn first_unselected(&self) -> usize
        ensures { result ≡ first_unselected self.now }
    {
        let phase = usize::from(self.phase);
        if self.round == Node::SELECTION {
            return phase;
        }
        phase + 1
    }

    // Whether the record is one that a node can have, be it reached from a start or not: a phase that has no selection
    // yet has no plan in the history, which is looked at where all else is as it should be.
    pub fn is_sound(&self) -> bool
        ensures { result ≡ sound self.now }
    {
        crew::is_accepted(self.crew)
            && self.own < self.crew.n
            && self.is_placed()
            && self.has_plans()
            && self.is_stamped()
            && is_empty_from(&self.history, self.first_unselected())
    }

    // How many phases of its history the node lists in a selection.
    fn listed_phases(&self) -> u8
        ensures { result ≡ listed_phases self.now }
    {
        if self.crew.class == Crew::CLASS_THREE {
            return self.phase;
        }
        0
    }

    // Writes the message of the coming round. Silence is a length of 0, for which any buffer is long enough: in round 2
    // of a node that has no plan to confirm, or whose turn it is not.
    fn write_coming(&self, buf: &mut [u8]) -> Result<usize, WriteRefusal>
        requires { Due self.now }
        ensures { Writes self.now buf.old (write_answer result) buf.new }
    {
        match self.round {
            Node::SELECTION => writer::write_selection(
                buf,
                self.run,
                self.phase,
                self.vote,
                self.stamp,
                &self.history,
                self.listed_phases(),
            ),
            Node::VALIDATION => {
                let validates = crew::is_validator(self.crew, self.phase, self.own);
                if !(validates && wire::is_plan(self.select)) {
                    return Ok(0);
                }
                writer::write_validation(buf, self.run, self.phase, self.select)
            }
            _ => writer::write_decision(buf, self.run, self.phase, self.vote, self.stamp),
        }
    }

    // Writes the coming message to the front of a lent buffer and answers its length, 0 where the node is silent; or
    // says why not. A writer refuses fields that break a bound as well; those of a sound record break none, so what is
    // left is a buffer that is too short.
    pub fn write(&self, buf: &mut [u8]) -> Result<usize, SendRefusal>
        ensures { Writes self.now buf.old (send_answer result) buf.new }
    {
        if !self.is_sound() {
            return Err(SendRefusal::Unsound);
        }
        if self.phase >= Node::SPENT {
            return Err(SendRefusal::Spent);
        }
        self.write_coming(buf).map_err(|_| SendRefusal::Short)
    }
}
