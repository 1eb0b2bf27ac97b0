// Splitting a budget of current among shuttles. specs/Shares.antt says who gets what, specs/Fair.antt what holds of the
// shares for any demands. All amounts are in mA.
#![tactic(auto)]

ghost use Rattle.std.specs.Prelude.{◌≡◌, ◌≤◌, ◌<◌, length};
ghost use Rattle.wire.specs.Outcome.{verdict};
ghost use Rattle.wire.specs.Below.{table};
ghost use Rattle.ballot.specs.Promises.{Counted};
ghost use Rattle.current.specs.Shares.{
  most_shuttles,
  total,
  shares_of,
  right_count,
  in_range,
  split_of,
  split_answer,
  SplitInto,
};
ghost use Rattle.current.specs.Promises.{
  Multiplied,
  most_product,
  Divided,
  most_total,
  Small,
  Scarce,
  priority_of,
  is_above,
  with_extra,
  Room,
  LaidParts,
};

// No rail has more shuttles.
pub const MOST_SHUTTLES: usize = 64;

// No shuttle demands more.
pub const MOST_DEMAND: u32 = 100000;

// No plan's budget is larger.
pub const MOST_BUDGET: u32 = 1000000;

// Priorities go by remainders in steps of so many: between two steps each shuttle has its own place.
const STEP: u64 = MOST_SHUTTLES as u64;

// Why a split is turned down; `split_number` in specs/Shares.antt has 02's numbers.
#[derive(Clone, Copy, PartialEq, Eq, Debug)]
pub enum SplitRefusal {
    Count,
    Amount,
}

// A demand's part of the budget: rounded down, and what the division leaves.
#[derive(Clone, Copy, PartialEq, Eq, Debug)]
struct Part {
    whole: u64,
    rest: u64,
}

// The demands and the budget stay two parameters: with both in one struct each clause below would reach through it, as
// in `asked.now.demands.now`, and be no plainer.

// As many shares as demands, and no more than there may be.
fn is_count(count: usize, room: usize) -> bool
    ensures { result ≡ right_count count room }
{
    (1..=MOST_SHUTTLES).contains(&count) && room == count
}

// `all` would end at the first demand that is too large, and so test one at a time; as it is the compiler tests several
// at once.
fn is_in_range(demands: &[u32], budget: u32) -> bool
    ensures { result ≡ in_range demands.now budget }
{
    demands.iter().fold(
        budget <= MOST_BUDGET,
        |good, &demand| good & (demand <= MOST_DEMAND),
    )
}

// Whether a split is accepted. The count comes first, so that no more than so many demands are ever looked at.
fn judge(demands: &[u32], budget: u32, room: usize) -> Result<(), SplitRefusal>
    ensures { split_answer result ≡ verdict (split_of demands.now budget room) }
{
    if !is_count(demands.len(), room) {
        return Err(SplitRefusal::Count);
    }
    if !is_in_range(demands, budget) {
        return Err(SplitRefusal::Amount);
    }
    Ok(())
}

// Sums and products pass 32 bits.
fn total(amounts: &[u32]) -> u64
    requires { length amounts.now ≤ most_shuttles }
    ensures { result ≡ total amounts.now }
{
    amounts.iter().map(|&amount| u64::from(amount)).sum()
}

fn product(a: u32, b: u32) -> u64
    ensures { Multiplied a b result }
{
    u64::from(a) * u64::from(b)
}

// The part of a demand whose product with the budget this is.
fn part_of(product: u64, all: u64) -> Part
    requires { (product ≤ most_product) × (0 < all) × (all ≤ most_total) }
    ensures { Divided product all result }
{
    Part {
        whole: product / all,
        rest: product % all,
    }
}

// Who goes first where the mA left over are given out, as one number: the higher goes before the lower, and comparing
// takes one step.
fn priority(rest: u64, i: usize) -> u32
    requires { (rest < most_total) × (i < most_shuttles) }
    ensures { result ≡ priority_of rest i }
{
    (STEP * rest + (STEP - 1 - i as u64)) as u32
}

// Lays the whole parts into the shares, and the priorities beside them: one division for each demand gives both.
fn lay_parts(demands: &[u32], budget: u32, all: u64, shares: &mut [u32], priorities: &mut [u32])
    requires scarce { Scarce demands.now budget all }
    requires room { Room demands.now shares.old priorities.old }
    ensures { LaidParts demands.now budget shares.new priorities.new }
{
    for (i, &demand) in demands.iter().enumerate() {
        let part = part_of(product(demand, budget), all);
        shares[i] = part.whole as u32;
        priorities[i] = priority(part.rest, i);
    }
}

// How many go before the one with this priority. It counts in 32 bits, as the priorities have: so the compiler counts
// several at once, which `count` in 64 bits does not.
fn count_above(priorities: &[u32], own: u32) -> u32
    requires { length priorities.now ≤ most_shuttles }
    ensures { Counted (is_above priorities.now own) (length priorities.now) result }
{
    priorities.iter().map(|&other| u32::from(own < other)).sum()
}

// Gives the mA left over out, one each.
fn give_out(priorities: &[u32], left: u32, shares: &mut [u32])
    requires small { Small shares.old }
    requires room { length priorities.now ≡ length shares.old }
    ensures { shares.new
        ≡ table (with_extra priorities.now left shares.old) (length shares.old) }
{
    for (i, share) in shares.iter_mut().enumerate() {
        let rank = count_above(priorities, priorities[i]);
        *share += u32::from(rank < left);
    }
}

// The shares where the budget is not enough for all.
fn share_out(demands: &[u32], budget: u32, all: u64, shares: &mut [u32])
    requires scarce { Scarce demands.now budget all }
    requires shares_len { length shares.old ≡ length demands.now }
    ensures { shares.new ≡ shares_of demands.now budget }
{
    let mut room = [0; MOST_SHUTTLES];
    let priorities = &mut room[..demands.len()];
    lay_parts(demands, budget, all, shares, priorities);
    let left = u64::from(budget) - total(shares);
    give_out(priorities, left as u32, shares);
}

// The shares where it is enough. Not `copy_from_slice`: for slices of any length that is a call of `memmove`, and the
// archive is to need no function of the C library but `memcpy` and `memset` (docs/LINKING.md).
fn copy(demands: &[u32], shares: &mut [u32])
    requires { length shares.old ≡ length demands.now }
    ensures { shares.new ≡ demands.now }
{
    for (i, &demand) in demands.iter().enumerate() {
        shares[i] = demand;
    }
}

// The shares of a split that is accepted.
fn fill(demands: &[u32], budget: u32, shares: &mut [u32])
    requires small { Small demands.now }
    requires shares_len { length shares.old ≡ length demands.now }
    ensures { shares.new ≡ shares_of demands.now budget }
{
    let all = total(demands);
    if all <= u64::from(budget) {
        copy(demands, shares);
    } else {
        share_out(demands, budget, all, shares);
    }
}

// Splits the budget among the demands, into the lent shares: as many as there are demands. A refusal writes nothing.
pub fn split(demands: &[u32], budget: u32, shares: &mut [u32]) -> Result<(), SplitRefusal>
    ensures { SplitInto demands.now budget shares.old result shares.new }
{
    judge(demands, budget, shares.len())?;
    fill(demands, budget, shares);
    Ok(())
}
