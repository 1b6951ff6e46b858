// Asking lists: a random list, the same in other orders and with repeats, and shared out into groups.

use crate::ask;
use crate::call::Call;
use crate::fit::Lent;
use crate::hold::{Held, hold};
use crate::junk::cell;
use crate::log::{Log, Point};
use arrayvec::ArrayVec;

// The most parts of a list.
const MOST: usize = 20;

// A list, or a part of one.
type List = ArrayVec<u16, MOST>;

// How many lists are asked of a sheet of n parts.
fn lists_of(n: usize) -> usize {
    if n < 1000 { 10 } else { 5 }
}

// Asks random lists.
pub fn all(held: Held, log: &mut Log) {
    for _ in 0..lists_of(held.sheet.n) {
        one(held, log);
    }
}

// Makes a random list of 1 to 20 parts, and asks it.
fn one(held: Held, log: &mut Log) {
    let mut parts = [0; MOST];
    let count = log.random.below(MOST).saturating_add(1).min(MOST);
    let list = &mut parts[..count];
    ask::fill(held.sheet.n, list, &mut log.random);
    let carrier = held.sheet.carrier_of(list);
    orders(held, carrier, list, log);
    share(held, carrier, list, log);
    log.lists = log.lists.saturating_add(1);
}

// Asks a list, and gives its carrier.
fn ask_list(held: Held, list: &[u16], log: &mut Log) -> usize {
    let lent = Lent::all(Call::List, held.sheet.n, list.len());
    hold(Call::List, held, list, lent, log)
}

// Asks a list, and holds its carrier against that of the whole list.
fn agree(held: Held, carrier: usize, list: &[u16], log: &mut Log) {
    let came = ask_list(held, list, log);
    log.agree(Some(Call::List), Point::WholeList, carrier, came);
}

// Asks a list as it is, from its end, and twice over.
fn orders(held: Held, carrier: usize, list: &[u16], log: &mut Log) {
    let mut reversed = List::new();
    let mut twice: ArrayVec<u16, 40> = ArrayVec::new();
    for part in list.iter().rev() {
        let _ = reversed.try_push(*part);
    }
    let _ = twice.try_extend_from_slice(list);
    let _ = twice.try_extend_from_slice(list);
    agree(held, carrier, list, log);
    agree(held, carrier, reversed.as_slice(), log);
    agree(held, carrier, twice.as_slice(), log);
}

// Shares a list out into groups at random, asks each that is not empty, and then the list of their carriers.
fn share(held: Held, carrier: usize, list: &[u16], log: &mut Log) {
    let mut numbers = [0; MOST];
    let mut carriers = List::new();
    let groups = log.random.below(list.len()).saturating_add(1);
    let numbers = &mut numbers[..list.len().min(MOST)];
    ask::fill(groups, numbers, &mut log.random);
    for g in 0..groups {
        let group = gather(cell(g), list, numbers);
        if !group.is_empty() {
            let _ = carriers.try_push(cell(ask_list(held, group.as_slice(), log)));
        }
    }
    agree(held, carrier, carriers.as_slice(), log);
}

// Lists the parts of one group.
fn gather(g: u16, list: &[u16], numbers: &[u16]) -> List {
    let mut group = List::new();
    for (part, number) in list.iter().zip(numbers) {
        if *number == g {
            let _ = group.try_push(*part);
        }
    }
    group
}
