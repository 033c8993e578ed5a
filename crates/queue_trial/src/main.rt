// Random operations on both ready queues and on a plain list in order, compared after every step.
#![tactic(auto)]

mod clients;
mod plain;

use clients::Operation;
use dice::Dice;
use plain::PlainList;
use queue::{Heap, Job, ReadyQueue, Row};
use std::alloc::AllocError;

const NOBODY: Job = Job {
    deadline: 0,
    owner: 0,
    left: 0,
};

// Few deadlines and owners, so that jobs often tie.
fn any_job(dice: &mut Dice) -> Job {
    Job {
        deadline: dice.below(40),
        owner: dice.below(5) as u8,
        left: dice.below(4) as u16,
    }
}

// Mostly puts at first, and later about as many jobs go as come.
fn any_operation(dice: &mut Dice) -> Operation {
    match dice.below(7) {
        0..=3 => Operation::Put(any_job(dice)),
        4..=5 => Operation::Spend,
        _ => Operation::DropFirst,
    }
}

// Beside `clients::apply`, since a list asks for memory and may not get it, and a queue does not.
fn apply_to_list(list: &mut PlainList, operation: Operation) -> Result<bool, AllocError> {
    match operation {
        Operation::Put(job) => list.put(job),
        Operation::Spend => Ok(list.spend()),
        Operation::DropFirst => Ok(list.drop_first()),
    }
}

fn same_bag<Q: ReadyQueue>(queue: &Q, list: &PlainList) -> bool {
    queue.count() == list.count() && queue.first() == list.first()
}

// What a trial saw: how many operations did something, how many did not, and whether all three were always alike.
#[derive(Clone, Copy)]
struct Tally {
    done: u32,
    refused: u32,
    alike: bool,
}

fn compare<A: ReadyQueue, B: ReadyQueue>(
    heap: &mut A,
    row: &mut B,
    list: &mut PlainList,
    dice: &mut Dice,
    steps: u32,
) -> Result<Tally, AllocError> {
    let mut tally = Tally {
        done: 0,
        refused: 0,
        alike: true,
    };
    for _ in 0..steps {
        let operation = any_operation(dice);
        let expected = apply_to_list(list, operation)?;
        let by_heap = clients::apply(heap, operation);
        let by_row = clients::apply(row, operation);
        if expected {
            tally.done = tally.done.saturating_add(1);
        } else {
            tally.refused = tally.refused.saturating_add(1);
        }
        tally.alike = tally.alike
            && by_heap == expected
            && by_row == expected
            && same_bag(heap, list)
            && same_bag(row, list);
    }
    Ok(tally)
}

fn trial(rt: &HostRuntime, dice: &mut Dice, places: usize, steps: u32) -> anyhow::Result<()> {
    let mut heap_area = vec![in rt.alloc(); NOBODY; places]?;
    let mut row_area = vec![in rt.alloc(); NOBODY; places]?;
    let mut heap = Heap::new(&mut heap_area);
    let mut row = Row::new(&mut row_area);
    let mut list = PlainList::new(rt.alloc(), places);
    let Tally {
        done,
        refused,
        alike,
    } = compare(&mut heap, &mut row, &mut list, dice, steps)?;
    let in_heap = clients::drain(&mut heap);
    let in_row = clients::drain(&mut row);
    let left = list.count();
    let verdict = if alike && in_heap == left && in_row == left {
        "alike"
    } else {
        "NOT ALIKE"
    };
    println!(rt;
        "{places} places, {steps} operations: {done} done, {refused} without effect, {left} jobs left: {verdict}"
    )?;
    Ok(())
}

// An area longer than 65,535: no more jobs than that find a place.
fn overfill(rt: &HostRuntime) -> anyhow::Result<()> {
    let mut heap_area = vec![in rt.alloc(); NOBODY; 65_600]?;
    let mut row_area = vec![in rt.alloc(); NOBODY; 65_600]?;
    let mut heap = Heap::new(&mut heap_area);
    let mut row = Row::new(&mut row_area);
    let operations: Vec<Operation> = (1..=65_600)
        .rev()
        .map(|deadline| Operation::Put(Job {
            deadline,
            owner: 0,
            left: 1,
        }))
        .collect(rt.alloc())?;
    clients::run(&mut heap, &operations);
    clients::run(&mut row, &operations);
    let in_heap = heap.count();
    let in_row = row.count();
    println!(rt; "65600 jobs for an area of 65600: {in_heap} in the heap, {in_row} in the row")?;
    Ok(())
}

fn main(rt: HostRuntime) -> anyhow::Result<()> {
    let mut dice = Dice::new(1);
    for places in [0, 1, 2, 7, 96, 500] {
        trial(&rt, &mut dice, places, 20_000)?;
    }
    overfill(&rt)
}
