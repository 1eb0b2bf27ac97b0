// How many slots of the columns are a crew's. The type says that the columns have so many places, so that no count over
// slots asks for it.
ghost use Rattle.std.specs.Prelude.{◌≡◌, ◌≤◌};
ghost use Rattle.crew.specs.Parts.{most_nodes};

use crew::{Crew, MOST_NODES};

#[derive(Clone, Copy, PartialEq, Eq, Debug)]
pub(crate) struct Slots {
    pub count: usize,
    ghost placed: { count ≤ most_nodes },
}

impl Slots {
    ghost use Rattle.tally.specs.Rules.{slots_of};

    // How many nodes of the crew have a place in the columns: of an accepted crew all.
    pub(crate) fn of(crew: Crew) -> Slots
        ensures { result.count ≡ slots_of crew }
    {
        Slots {
            count: usize::from(crew.n).min(MOST_NODES),
        }
    }
}
