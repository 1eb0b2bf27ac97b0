// The least crews, for planners: how few nodes a class needs where b may lie and f be out of reach, and how few votes
// decide among them. A constant table (table.rt) has them; specs/Search.antt says what stands in it, specs/Entries.antt
// what is shown of it once over all entries.
#![tactic(auto)]

mod table;

ghost use Rattle.std.specs.Prelude.{◌≡◌, true};
ghost use Rattle.least_crews.specs.Search.{in_range, least_crew, lookup_of, lookup_answer};
ghost use Rattle.least_crews.specs.Entries.{place_of, Shown};

use crew::Crew;

// So far the table goes. No accepted crew has a higher b or f: n passes 3b + 2f, and no crew has more than 32 nodes.
pub const MOST_B: u8 = 10;

pub const MOST_F: u8 = 15;

// How many values f, b and the class have in it. They are made wide by `as`, for a constant calls no function.
const F_VALUES: usize = MOST_F as usize + 1;

const B_VALUES: usize = MOST_B as usize + 1;

const CLASSES: usize = Crew::CLASS_THREE as usize;

// An entry is two numbers: n comes first, and D behind it. The table has the bare numbers and no array of `Least`: it
// is what the program of crate least_table prints, and that may not change.
const ENTRY_SIZE: usize = 2;

const N_AT: usize = 0;

const D_BEHIND: usize = 1;

const NUMBERS: usize = ENTRY_SIZE * CLASSES * B_VALUES * F_VALUES;

// An entry: the least n that any D lets be accepted, and the least D for that n; both 0 where n would pass 32, as 02
// has it (`least_crew`): no Option, since `lookup` and `rail_least` answer the 0.
#[derive(Clone, Copy, PartialEq, Eq, Debug)]
pub struct Least {
    pub n: u8,
    pub d: u8,
}

// Why a lookup is turned down; `lookup_number` in specs/Search.antt has 02's number.
#[derive(Clone, Copy, PartialEq, Eq, Debug)]
pub enum LookupRefusal {
    Range,
}

// Class, b and f stay three parameters here and below: `lookup` has them so, as C has.
fn is_in_range(class: u8, b: u8, f: u8) -> bool
    ensures { result ≡ in_range class b f }
{
    (Crew::CLASS_ONE..=Crew::CLASS_THREE).contains(&class) && b <= MOST_B && f <= MOST_F
}

// The table, and what is shown of it, once over all its entries.
fn shown_table() -> [u8; NUMBERS]
    ensures { Shown result }
{
    table::LEAST
}

// Where an entry's n stands: entries go class by class, in a class by b, then by f.
fn place_of(class: u8, b: u8, f: u8) -> usize
    requires { in_range class b f ≡ true }
    ensures { result ≡ place_of class b f }
{
    let row = B_VALUES * usize::from(class - Crew::CLASS_ONE) + usize::from(b);
    ENTRY_SIZE * (F_VALUES * row + usize::from(f)) + N_AT
}

#[tactic(auto, using(crate::proofs::Found::found))]
fn entry_of(class: u8, b: u8, f: u8) -> Least
    requires { in_range class b f ≡ true }
    ensures { result ≡ least_crew class b f }
{
    let numbers = shown_table();
    let place = place_of(class, b, f);
    let n = numbers[place];
    let d = numbers[place + D_BEHIND];
    Least { n, d }
}

// Looks the least crew of a class, b and f up. The ranges are tested first.
#[tactic(auto, unfolding(crate::specs::Search::lookup_of))]
pub fn lookup(class: u8, b: u8, f: u8) -> Result<Least, LookupRefusal>
    ensures { lookup_answer result ≡ lookup_of class b f }
{
    if !is_in_range(class, b, f) {
        return Err(LookupRefusal::Range);
    }
    Ok(entry_of(class, b, f))
}
