// Every refusal of a unit that a host can meet, met by real calls, and the number of each. Two are met by no calls: 34 and 42
// want a queue that is full, a unit that is not opened answers 31 and 43 before it comes to ask for a place, and for one that
// is, over whatever queue, the promises say that there is a place each time (`machine::promise::promises_stand`).
#![tactic(auto)]

ghost use Rattle.std.specs.Prelude.{◌≡◌, true};
ghost use Rattle.machine.specs.declared.call.Call.TheVariants.{Report};
ghost use Rattle.unit.specs.Meaning.{meaning, called};
ghost use Rattle.token_use.specs.Turns.{IsOfOpenSlot};

use admission::{Table, admit};
use anyhow::ensure;
use machine::{Outcome, Refusal};
use queue::{Heap, Job, ReadyQueue};
use token_use::{turn, turn_after_detour};
use unit::{Token, Unit};

// A poll of 1 slot in 4, and a lane of 1 in 4.
const SHEET: [u8; 21] = [
    0, 21, 1, 1, 1, b'P', 1, b'a', 0, 0, 0, 4, 0, 1, b'L', 1, b'b', 0, 4, 0, 1,
];

// The places that a queue must have for that sheet: one for the poll, and eight for the lane.
const PLACES: usize = 9;

const NOBODY: Job = Job {
    deadline: 0,
    owner: 0,
    left: 1,
};

fn table_of(sheet: &[u8]) -> anyhow::Result<Table> {
    let mut table = Table::new();
    let admitted = admit(sheet, &mut table).is_ok();
    ensure!(admitted, "the sheet is refused");
    Ok(table)
}

// Prints the number of a refusal, and where it was met.
fn tell<T: Drop>(rt: &HostRuntime, answer: Result<T, Refusal>, case: &str) -> anyhow::Result<()> {
    match answer {
        Ok(_) => println!(rt; "NOT REFUSED: {case}")?,
        Err(refusal) => println!(rt; "{} {case}", refusal.number())?,
    }
    Ok(())
}

// 20 to 23.
fn opening(rt: &HostRuntime, table: &Table) -> anyhow::Result<()> {
    let mut area = [NOBODY; PLACES];
    let mut unit = Unit::new(Heap::new(&mut area));
    tell(
        rt,
        unit.open(&Table::new(), 0),
        "opening with a table that has neither poll nor lane",
    )?;

    let mut area = [NOBODY; PLACES];
    let mut queue = Heap::new(&mut area);
    ensure!(queue.put(NOBODY).is_ok(), "an empty queue has no place");
    let mut unit = Unit::new(queue);
    tell(
        rt,
        unit.open(table, 0),
        "opening over a queue that holds a job",
    )?;

    let mut area = [NOBODY; PLACES - 1];
    let mut unit = Unit::new(Heap::new(&mut area));
    tell(
        rt,
        unit.open(table, 0),
        "opening over a queue with a place too few",
    )?;

    let mut area = [NOBODY; PLACES];
    let mut unit = Unit::new(Heap::new(&mut area));
    ensure!(unit.open(table, 0).is_ok(), "the unit is not opened");
    tell(rt, unit.open(table, 1), "opening a second time")
}

// Reports the token of the slot that is open, which is never refused. `token_use` has the same for itself: a public one would
// ask its callers for an open slot.
fn close<Q: ReadyQueue>(unit: &mut Unit<Q>, token: Token, outcome: Outcome)
    requires open { IsOfOpenSlot token (meaning Q.bag Q.places unit.old) }
    ensures meaning { meaning Q.bag Q.places unit.new ≡ called (meaning Q.bag Q.places unit.old) (Report token.unit token.slot outcome) }
{
    let reported = unit.report(token, outcome).is_ok();
    prove!(reported);
}

// A request while a slot is open.
fn request_in_a_slot<Q: ReadyQueue>(unit: &mut Unit<Q>) -> Result<u32, Refusal> {
    let token = unit.grant()?;
    let asked = unit.request(0, 1);
    close(unit, token, Outcome::Used);
    asked
}

// A second grant, which is refused, and changes nothing.
fn second_grant<Q: ReadyQueue>(unit: &mut Unit<Q>) -> Refusal
    requires open { (meaning Q.bag Q.places unit.old).state.is_open ≡ true }
    ensures same { meaning Q.bag Q.places unit.new ≡ meaning Q.bag Q.places unit.old }
{
    match unit.grant() {
        // this never comes: the slot is open, so that there is no second token
        Ok(second) => {
            close(unit, second, Outcome::Used);
            Refusal::NotThisSlot
        }
        Err(refusal) => refusal,
    }
}

// A grant while a slot is open.
fn grant_in_a_slot<Q: ReadyQueue>(unit: &mut Unit<Q>) -> Result<(), Refusal> {
    let token = unit.grant()?;
    let refusal = second_grant(unit);
    close(unit, token, Outcome::Used);
    Err(refusal)
}

// 30 to 33.
fn requests(rt: &HostRuntime, table: &Table) -> anyhow::Result<()> {
    let mut area = [NOBODY; PLACES];
    let mut unit = Unit::new(Heap::new(&mut area));
    let unopened = unit.request(0, 1);
    ensure!(unit.open(table, 0).is_ok(), "the unit is not opened");
    tell(
        rt,
        request_in_a_slot(&mut unit),
        "a request while a slot is open",
    )?;
    tell(rt, unopened, "a request on an unopened unit")?;
    tell(
        rt,
        unit.request(1, 1),
        "a request in a lane that is not there",
    )?;
    tell(rt, unit.request(0, 0), "a request of no slot")?;
    tell(rt, unit.request(0, 10_001), "a request of 10,001 slots")?;
    for _ in 0..8 {
        ensure!(
            unit.request(0, 1).is_ok(),
            "one of eight requests is refused"
        );
    }
    tell(
        rt,
        unit.request(0, 1),
        "a ninth request with eight deadlines ahead",
    )
}

// So many slots, each reported as used.
fn turns<Q: ReadyQueue>(unit: &mut Unit<Q>, slots: u32) -> Result<(), Refusal> {
    for _ in 0..slots {
        turn(unit, Outcome::Used)?;
    }
    Ok(())
}

// 43, 40 and 41, in the order in which they are asked.
fn grants(rt: &HostRuntime, table: &Table) -> anyhow::Result<()> {
    let mut area = [NOBODY; PLACES];
    let mut unit = Unit::new(Heap::new(&mut area));
    tell(
        rt,
        turn(&mut unit, Outcome::Used),
        "a grant on an unopened unit",
    )?;
    ensure!(unit.open(table, 0).is_ok(), "the unit is not opened");
    tell(
        rt,
        grant_in_a_slot(&mut unit),
        "a grant while a slot is open",
    )?;
    ensure!(
        turns(&mut unit, 99_999_999).is_ok(),
        "a slot is refused too early"
    );
    tell(
        rt,
        turn(&mut unit, Outcome::Used),
        "a grant after 100,000,000 slots",
    )
}

// A report to a unit that has no slot open; the token is then reported to its own.
fn detour<Q: ReadyQueue, R: ReadyQueue + Drop>(
    unit: &mut Unit<Q>,
    spare: R,
) -> Result<(), Refusal> {
    Err(turn_after_detour(unit, spare, Outcome::Used)?)
}

// 50.
fn reports(rt: &HostRuntime, table: &Table) -> anyhow::Result<()> {
    let mut area = [NOBODY; PLACES];
    let mut unit = Unit::new(Heap::new(&mut area));
    ensure!(unit.open(table, 0).is_ok(), "the unit is not opened");
    let mut spare = [NOBODY; PLACES];
    tell(
        rt,
        detour(&mut unit, Heap::new(&mut spare)),
        "a report to a unit that has no slot open",
    )
}

fn main(rt: HostRuntime) -> anyhow::Result<()> {
    let table = table_of(&SHEET)?;
    opening(&rt, &table)?;
    requests(&rt, &table)?;
    grants(&rt, &table)?;
    reports(&rt, &table)
}
