// The cuts and says of a drill that wait for its next go: what waits for one receiver, sender by sender.
// Each function is what a definition says: specs/Pairs.antt; proofs/Rules.antt shows that 01's rules hold of them.
// Nothing is kept of a sender that no crew has, and nothing waits from it.
#![tactic(auto)]

ghost use Rattle.std.specs.Prelude.{◌≡◌};
ghost use Rattle.pending.specs.Pairs.{idle, nothing, with_cut, with_say, waiting_from};

use crew::MOST_NODES;
use wire::Plan;

// What waits from one sender.
#[derive(Clone, Copy, PartialEq, Eq, Debug)]
pub struct Waiting {
    // What the sender is to say, 0 for nothing: an Option of a plan and a stamp would double what a drill keeps.
    pub plan: Plan,
    pub stamp: u8,
    // Whether what the sender sends is lost.
    pub cut: bool,
}

// What waits for one receiver, by senders.
#[derive(Clone, Copy, PartialEq, Eq, Debug)]
pub struct Pending {
    pub from: [Waiting; MOST_NODES],
}

impl Waiting {
    // Nothing waits.
    fn nothing() -> Waiting
        ensures { result ≡ idle }
    {
        Waiting {
            cut: false,
            plan: 0,
            stamp: 0,
        }
    }
}

impl Pending {
    // Nothing waits.
    pub fn empty() -> Pending
        ensures { result ≡ nothing }
    {
        Pending {
            from: [Waiting::nothing(); MOST_NODES],
        }
    }

    // What the sender sends is lost. Here and in the next a test and an index stand for `get_mut`: a proof knows no
    // element after it, but the array's length alone.
    pub fn with_cut(self, sender: usize) -> Pending
        ensures { result ≡ with_cut self sender }
    {
        let mut pending = self;
        if sender < MOST_NODES {
            pending.from[sender].cut = true;
        }
        pending
    }

    // The sender says this. A later say takes the place of an earlier one; a cut stays.
    pub fn with_say(self, sender: usize, plan: Plan, stamp: u8) -> Pending
        ensures { result ≡ with_say self sender plan stamp }
    {
        let mut pending = self;
        if sender < MOST_NODES {
            let waiting = &mut pending.from[sender];
            waiting.plan = plan;
            waiting.stamp = stamp;
        }
        pending
    }

    // What waits from the sender.
    pub fn waiting(&self, sender: usize) -> Waiting
        ensures { result ≡ waiting_from self.now sender }
    {
        self.from.get(sender).copied().unwrap_or(Waiting::nothing())
    }
}
