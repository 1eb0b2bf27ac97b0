// A node record as bytes of fixed layout, for programs in other languages, which keep records as bytes.
// specs/Layout.antt has the layout. Every 150 bytes are the image of one record and every record has one image:
// proofs/RoundTrip.antt.
#![tactic(auto)]

ghost use Rattle.std.specs.Prelude.{◌≡◌, ◌+◌, ◌≤◌};
ghost use Rattle.std.proofs.lemmas.List.Edits.{sets};
ghost use Rattle.wire.specs.Bytes.{number_at};
ghost use Rattle.wire.specs.Sizes.{plan_size, run_size, history_size};
ghost use Rattle.image.specs.Layout.{
  crew_place,
  own_place,
  run_place,
  vote_place,
  history_place,
  image_size,
  crew_bytes,
  place_bytes,
  plan_bytes,
  scalar_bytes,
  plans_in,
  crew_in,
  record_in,
  image_fits,
  load_of,
  StoredIn,
};
ghost use Rattle.image.specs.Promises.{HistoryLaid};

use crew::Crew;
use node::Node;
use wire::{Number, PHASES, PLAN_SIZE, Plan, RUN_SIZE};

// Where the fields stand: each where the one before it ends. A crew is six bytes.
const CREW_AT: usize = 0;

const CREW_SIZE: usize = 6;

const OWN_AT: usize = CREW_AT + CREW_SIZE;

const RUN_AT: usize = OWN_AT + 1;

const PHASE_AT: usize = RUN_AT + RUN_SIZE;

const ROUND_AT: usize = PHASE_AT + 1;

const VOTE_AT: usize = ROUND_AT + 1;

const BASE_AT: usize = VOTE_AT + PLAN_SIZE;

const STAMP_AT: usize = BASE_AT + PLAN_SIZE;

const SELECT_AT: usize = STAMP_AT + 1;

const RESULT_AT: usize = SELECT_AT + PLAN_SIZE;

const HISTORY_AT: usize = RESULT_AT + PLAN_SIZE;
// How many bytes an image has.
const LENGTH: usize = HISTORY_AT + PLAN_SIZE * PHASES;

// The plan that stands from a place on: the twin of message's, since a public one in wire would test the place again.
fn plan_at(s: &[u8; LENGTH], place: usize) -> Plan
    requires { place + plan_size ≤ image_size }
    ensures { result ≡ number_at plan_size s.now place }
{
    wire::plan_of(s[place], s[place + 1])
}

// The run, likewise.
fn run_in(s: &[u8; LENGTH]) -> u32
    ensures { result ≡ number_at run_size s.now run_place }
{
    wire::u32_of(s[RUN_AT], s[RUN_AT + 1], s[RUN_AT + 2], s[RUN_AT + 3])
}

fn crew_in(s: &[u8; LENGTH]) -> Crew
    ensures { result ≡ crew_in s.now }
{
    Crew {
        class: s[CREW_AT],
        n: s[CREW_AT + 1],
        b: s[CREW_AT + 2],
        f: s[CREW_AT + 3],
        d: s[CREW_AT + 4],
        c: s[CREW_AT + 5],
    }
}

// The plans of the history, the last bytes of an image.
fn history_in(s: &[u8; LENGTH]) -> [Plan; PHASES]
    ensures { result ≡ plans_in s.now history_place history_size }
{
    let mut history = [Node::NO_PLAN; PHASES];
    for (phase, plan) in history.iter_mut().enumerate() {
        *plan = plan_at(s, HISTORY_AT + PLAN_SIZE * phase);
    }
    history
}

// Whether a slice has the length of an image.
pub fn fits(s: &[u8]) -> bool
    ensures { result ≡ image_fits s.now }
{
    s.len() == LENGTH
}

// The record that 150 bytes are the image of.
fn record_in(s: &[u8; LENGTH]) -> Node
    ensures { result ≡ record_in s.now }
{
    Node {
        crew: crew_in(s),
        own: s[OWN_AT],
        run: run_in(s),
        phase: s[PHASE_AT],
        round: s[ROUND_AT],
        vote: plan_at(s, VOTE_AT),
        base: plan_at(s, BASE_AT),
        stamp: s[STAMP_AT],
        select: plan_at(s, SELECT_AT),
        result: plan_at(s, RESULT_AT),
        history: history_in(s),
    }
}

// Loads the record that a slice is the image of: none where the slice is not as long as an image.
pub fn load(s: &[u8]) -> Option<Node>
    ensures { result ≡ load_of s.now }
{
    s.as_array().map(record_in)
}

fn put_crew(image: &mut [u8; LENGTH], crew: Crew)
    ensures { image.new ≡ sets image.old crew_place (crew_bytes crew) }
{
    image[CREW_AT] = crew.class;
    image[CREW_AT + 1] = crew.n;
    image[CREW_AT + 2] = crew.b;
    image[CREW_AT + 3] = crew.f;
    image[CREW_AT + 4] = crew.d;
    image[CREW_AT + 5] = crew.c;
}

// The own number, the run and the coming round.
fn put_place(image: &mut [u8; LENGTH], node: &Node)
    ensures { image.new ≡ sets image.old own_place (place_bytes node.now) }
{
    image[OWN_AT] = node.own;
    node.run.put(image, RUN_AT);
    image[PHASE_AT] = node.phase;
    image[ROUND_AT] = node.round;
}

// The plans that the node votes for, falls back to, selected and decided, and the stamp.
fn put_plans(image: &mut [u8; LENGTH], node: &Node)
    ensures { image.new ≡ sets image.old vote_place (plan_bytes node.now) }
{
    node.vote.put(image, VOTE_AT);
    node.base.put(image, BASE_AT);
    image[STAMP_AT] = node.stamp;
    node.select.put(image, SELECT_AT);
    node.result.put(image, RESULT_AT);
}

// The fields before the history.
fn put_scalars(image: &mut [u8; LENGTH], node: &Node)
    ensures { image.new ≡ sets image.old crew_place (scalar_bytes node.now) }
{
    put_crew(image, node.crew);
    put_place(image, node);
    put_plans(image, node);
}

fn put_history(image: &mut [u8; LENGTH], history: &[Plan; PHASES])
    ensures { HistoryLaid image.old history.now image.new }
{
    for (phase, plan) in history.iter().enumerate() {
        plan.put(image, HISTORY_AT + PLAN_SIZE * phase);
    }
}

// Writes a record's image, and answers whether it did: a Result of nothing would be no plainer. A slice of another
// length is left as it is.
pub fn store(node: &Node, image: &mut [u8]) -> bool
    ensures { StoredIn image.old node.now result image.new }
{
    let Some(image) = image.as_mut_array() else {
        return false;
    };
    put_scalars(image, node);
    put_history(image, &node.history);
    true
}
