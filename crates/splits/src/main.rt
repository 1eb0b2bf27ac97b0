// Splits a budget of current among shuttles, in mA. With a budget and demands as its arguments it shows that split in
// one line, with no arguments worked splits, a line each. The command ./split runs it. For arguments that are refused a
// line goes to standard error, and none to standard output.
#![tactic(auto)]

ghost use Rattle.std.specs.Prelude.{◌≤◌, length};

use current::{MOST_BUDGET, MOST_DEMAND, MOST_SHUTTLES, SplitRefusal};
use std::env::FillError;
use std::io;
use std::rt::Env;

// The arguments, by their places: the program's own name is at 0, and all from the first demand on are demands.
const BUDGET: usize = 1;

const FIRST_DEMAND: usize = 2;

// Room for one demand more than a split may have: so many are refused, and more need not be read.
const ROOM: usize = MOST_SHUTTLES + 1;

// Out of both ranges: what an argument is taken for that is no number, or one above the largest budget. So the split
// refuses it where it refuses a number out of range, behind a wrong count.
const OUTSIDE: u32 = MOST_BUDGET + 1;

// The largest budget has so many digits.
const MOST_DIGITS: usize = 7;

// So many equal numbers in a row are no longer shown one by one.
const LONG_RUN: usize = 8;

// Each number, and how often it stands in a long run.
fn show_numbers(rt: &impl Print, numbers: &[u32]) -> io::Result<()> {
    for run in numbers.chunk_by(|a, b| a == b) {
        if LONG_RUN <= run.len() {
            print!(rt; " {} ({} times)", run[0], run.len())?;
        } else {
            for number in run {
                print!(rt; " {number}")?;
            }
        }
    }
    Ok(())
}

// A list of numbers, after some text.
fn show_list(rt: &impl Print, text: &str, numbers: &[u32]) -> io::Result<()> {
    print!(rt; "{text}")?;
    if numbers.is_empty() {
        print!(rt; " none")?;
    }
    show_numbers(rt, numbers)
}

// A budget, the demands and the shares stay parameters: a struct of them would have to be made in each line below that
// works a split out, and those lines would be no plainer.

// What is split among whom.
fn show_demands(rt: &impl Print, budget: u32, demands: &[u32]) -> io::Result<()> {
    print!(rt; "budget {budget}")?;
    show_list(rt, " mA, demands", demands)
}

// The line of a split that is accepted.
fn show_split(rt: &impl Print, budget: u32, demands: &[u32], shares: &[u32]) -> io::Result<()> {
    show_demands(rt, budget, demands)?;
    show_list(rt, ": shares", shares)?;
    println!(rt;)
}

// The line of one that is refused: it writes nothing into the shares.
fn show_refused(
    rt: &impl Print,
    budget: u32,
    demands: &[u32],
    number: u64,
    shares: &[u32],
) -> io::Result<()> {
    show_demands(rt, budget, demands)?;
    print!(rt; ": refused with {number}")?;
    show_list(rt, ", shares still", shares)?;
    println!(rt;)
}

// 02's number of a refusal: crate boundary has it too, on which this program does not build.
fn number_of(why: SplitRefusal) -> u64 {
    match why {
        SplitRefusal::Count => 18,
        SplitRefusal::Amount => 19,
    }
}

// A worked split. All shares are 7 before, which a refusal leaves.
fn work_out(rt: &impl Print, budget: u32, demands: &[u32], shares: &mut [u32]) -> io::Result<()> {
    match current::split(demands, budget, shares) {
        Ok(()) => show_split(rt, budget, demands, shares),
        Err(why) => show_refused(rt, budget, demands, number_of(why), shares),
    }
}

fn work_out_shortages(rt: &impl Print) -> io::Result<()> {
    // One mA more takes one from the first.
    work_out(rt, 3, &[1, 3, 3], &mut [7; 3])?;
    work_out(rt, 4, &[1, 3, 3], &mut [7; 3])?;
    // What is left over goes to the largest remainders, and of equal ones to the lower number.
    work_out(rt, 1000, &[400, 300, 500], &mut [7; 3])?;
    work_out(rt, 5, &[1, 2, 4], &mut [7; 3])?;
    work_out(rt, 10, &[5, 5, 5], &mut [7; 3])?;
    work_out(rt, 11, &[5, 5, 5], &mut [7; 3])?;
    // Nothing is left over.
    work_out(rt, 4, &[6, 3, 3], &mut [7; 3])?;
    // A demand of 0 gets nothing, and without a budget nobody does.
    work_out(rt, 1, &[0, 2, 1], &mut [7; 3])?;
    work_out(rt, 0, &[2, 1], &mut [7; 2])?;
    // A shuttle alone gets all.
    work_out(rt, 5, &[9], &mut [7])
}

fn work_out_enough(rt: &impl Print) -> io::Result<()> {
    // One mA short, just enough, and more.
    work_out(rt, 11, &[6, 3, 3], &mut [7; 3])?;
    work_out(rt, 12, &[6, 3, 3], &mut [7; 3])?;
    work_out(rt, 13, &[6, 3, 3], &mut [7; 3])?;
    // Nobody demands anything.
    work_out(rt, 0, &[0], &mut [7])?;
    work_out(rt, 5, &[0, 0], &mut [7; 2])
}

// As many shuttles as there may be, with one demand.
fn work_out_most(rt: &impl Print, budget: u32, demand: u32) -> io::Result<()> {
    work_out(
        rt,
        budget,
        &[demand; MOST_SHUTTLES],
        &mut [7; MOST_SHUTTLES],
    )
}

// The ends of the ranges.
fn work_out_limits(rt: &impl Print) -> io::Result<()> {
    work_out(rt, MOST_BUDGET, &[MOST_DEMAND], &mut [7])?;
    work_out(rt, 2 * MOST_DEMAND - 1, &[MOST_DEMAND; 2], &mut [7; 2])?;
    work_out_most(rt, 1, 1)?;
    work_out_most(rt, MOST_SHUTTLES as u32 - 1, 1)?;
    work_out_most(rt, MOST_SHUTTLES as u32, 1)?;
    work_out_most(rt, MOST_BUDGET - 1, MOST_DEMAND)?;
    work_out_most(rt, MOST_BUDGET, MOST_DEMAND)
}

fn work_out_refusals(rt: &impl Print) -> io::Result<()> {
    // No demands, and one too many.
    work_out(rt, 1, &[1; 0], &mut [7; 0])?;
    work_out(rt, 1, &[1; ROOM], &mut [7; ROOM])?;
    // A share too few, and one too many.
    work_out(rt, 1, &[1, 1], &mut [7])?;
    work_out(rt, 1, &[1, 1], &mut [7; 3])?;
    // Numbers out of range.
    work_out(rt, 1, &[MOST_DEMAND + 1, 1], &mut [7; 2])?;
    work_out(rt, 1, &[1, MOST_DEMAND + 1], &mut [7; 2])?;
    work_out(rt, MOST_BUDGET + 1, &[1, 1], &mut [7; 2])?;
    // Both, of which the count comes first.
    work_out(rt, 1, &[MOST_DEMAND + 1, 1], &mut [7; 3])?;
    work_out(
        rt,
        MOST_BUDGET + 1,
        &[MOST_DEMAND + 1; ROOM],
        &mut [7; ROOM],
    )
}

// What is allowed, for arguments that are refused.
fn refuse(rt: &impl Eprint, why: SplitRefusal) -> io::Result<()> {
    match why {
        SplitRefusal::Count => { eprintln!(rt; "split: a split has 1 to {MOST_SHUTTLES} demands") }
        SplitRefusal::Amount => {
            eprint!(rt; "split: a budget is 0 to {MOST_BUDGET} mA")?;
            eprintln!(rt; ", a demand 0 to {MOST_DEMAND} mA, without leading zeros")
        }
    }
}

fn answer_split(
    rt: &(impl Print + Eprint),
    budget: u32,
    demands: &[u32],
    shares: &mut [u32],
) -> io::Result<()> {
    match current::split(demands, budget, shares) {
        Ok(()) => show_split(rt, budget, demands, shares),
        Err(why) => refuse(rt, why),
    }
}

// The amount that an argument names, where there is such an argument.
fn amount(rt: &impl Env, i: usize) -> Option<u32> {
    let mut text = [0u8; MOST_DIGITS];
    match rt.arg(i, &mut text) {
        Ok(length) => Some(script::decimal(&text[..length], MOST_BUDGET).unwrap_or(OUTSIDE)),
        Err(FillError::TooLong) => Some(OUTSIDE),
        Err(FillError::NotPresent) => None,
    }
}

// Reads the demands that the arguments name, and says how many: those for which there is no room are not read.
fn read_demands(rt: &impl Env, demands: &mut [u32]) -> usize
    ensures { result ≤ length demands.new }
{
    for (i, demand) in demands.iter_mut().enumerate() {
        match amount(rt, FIRST_DEMAND + i) {
            Some(named) => *demand = named,
            None => return i,
        }
    }
    demands.len()
}

// The split of a budget among the demands that the arguments name.
fn answer(rt: &(impl Print + Eprint + Env), budget: u32) -> io::Result<()> {
    let mut demands = [0; ROOM];
    let mut shares = [0; ROOM];
    let n = read_demands(rt, &mut demands);
    answer_split(rt, budget, &demands[..n], &mut shares[..n])
}

fn main(rt: HostRuntime) -> io::Result<()> {
    match amount(&rt, BUDGET) {
        Some(budget) => answer(&rt, budget),
        None => {
            work_out_shortages(&rt)?;
            work_out_enough(&rt)?;
            work_out_limits(&rt)?;
            work_out_refusals(&rt)
        }
    }
}
