// From an inbox's bytes to columns, in one walk: each slot is handed to the reader once, and what a slot that counts
// says is put into the columns of presence, votes and stamps. The reader lays a selection's entries into the flat array
// of histories, each slot's into a row of its own, where the array has room for the rows. It is flat as rows are only
// as wide as the coming phase asks: to fill rows of 64 places for every slot takes 60 ns, as long as a short walk.
// What a slot says stands in specs/Inbox.antt, the columns in specs/Columns.antt. Crate tally runs the rules over them,
// and nothing after the walk looks at the inbox.
#![tactic(auto)]

ghost use Rattle.std.specs.Prelude.{◌≡◌, List, ℕ, ◌<◌, ◌≤◌};
ghost use Rattle.std.proofs.Math.Option.{some};
ghost use Rattle.crew.specs.Parts.{most_nodes};
ghost use Rattle.message.specs.Reading.{body_as};
ghost use Rattle.inbox.specs.Inbox.{ballot_of};
ghost use Rattle.inbox.specs.Columns.{empty, put, put_vote, slots_in, row_width, ReadInto};

use crew::MOST_NODES;
use message::{Body, Header, SLOT};
use node::Node;
use wire::Plan;

// What the slots of an inbox say, by slot: whether one counts, its vote and its stamp; of an absent one the last two
// say nothing. Columns beside each other and no array of slots, since each rule counts over one or two of them, and
// then the compiler takes many slots at a time: the speed of the rules rests on that.
#[derive(Clone, Copy, PartialEq, Eq, Debug)]
pub struct Columns {
    pub present: [bool; MOST_NODES],
    pub votes: [Plan; MOST_NODES],
    pub stamps: [u8; MOST_NODES],
}

impl Columns {
    // The columns before the walk: no slot says anything.
    pub fn empty() -> Columns
        ensures { result ≡ empty }
    {
        Columns {
            present: [false; MOST_NODES],
            votes: [Node::NO_PLAN; MOST_NODES],
            stamps: [Node::UNSTAMPED; MOST_NODES],
        }
    }

    // Puts a vote and its stamp into the places of slot q.
    fn put(&mut self, q: usize, vote: Plan, stamp: u8)
        requires { q < most_nodes }
        ensures { self.new ≡ put_vote self.old q vote stamp }
    {
        self.present[q] = true;
        self.votes[q] = vote;
        self.stamps[q] = stamp;
    }

    // Puts what a message says into the places of slot q. A validation has no stamp; entries were laid by the reader.
    fn put_body(&mut self, q: usize, body: Body)
        requires { q < most_nodes }
        ensures { (slot : List ℕ) → self.new ≡ put self.old q (some (ballot_of (body_as body slot))) }
    {
        match body {
            Body::Selection { vote, stamp, .. } | Body::Decision { vote, stamp } => {
                self.put(q, vote, stamp);
            }
            Body::Validation { plan } => self.put(q, plan, Node::UNSTAMPED),
        }
    }
}

// How many slots of an inbox have a place in the columns; a slot that is not whole is none.
fn slots_in(length: usize) -> usize
    ensures { result ≡ slots_in length }
{
    (length / SLOT).min(MOST_NODES)
}

// How many places a row of the histories has: one for each phase before the coming one. None where the array has no
// room for n rows, as where nobody looks at histories.
fn row_width(phase: u8, n: usize, places: usize) -> usize
    requires { n ≤ most_nodes }
    ensures { result ≡ row_width phase n places }
{
    let width = usize::from(phase);
    if width * n <= places { width } else { 0 }
}

// Walks the slots of an inbox, once, into the columns; kind, run and phase are those of the coming round. The places of
// a slot that does not count keep what they had, but for its row, where the entries of a selection may stand that
// breaks a bound or has residue behind it: presence tells which rows say something.
pub fn read_slots(inbox: &[u8], coming: Header, columns: &mut Columns, histories: &mut [Plan])
    ensures { ReadInto coming inbox.now columns.old histories.old columns.new histories.new }
{
    let n = slots_in(inbox.len());
    let width = row_width(coming.phase, n, histories.len());
    let mut from = 0;
    for q in 0..n {
        let start = SLOT * q;
        let to = from + width;
        let slot = &inbox[start..start + SLOT];
        let row = &mut histories[from..to];
        if let Some(body) = message::read_expected(slot, coming, row) {
            columns.put_body(q, body);
        }
        from = to;
    }
}
