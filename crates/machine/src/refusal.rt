// Why a call on the unit is refused: the question that was answered with no. Each refusal stands for its number.
ghost use Rattle.std.specs.Prelude.{◌≡◌};
ghost use Rattle.machine.specs.Refusals.{refusal_number};

#[derive(Clone, Copy, Debug, PartialEq, Eq)]
pub enum Refusal {
    // opening: the table has neither poll nor lane
    EmptyTable = 20,
    // opening: the queue holds jobs
    QueueInUse = 21,
    // opening: the queue has too few places for the table
    TooFewPlaces = 22,
    // opening: the unit is opened already
    OpenedBefore = 23,
    // request: a slot is open
    DuringSlot = 30,
    // request: there is no such lane
    NoSuchLane = 31,
    // request: the budget is 0, or larger than 10,000
    BudgetOutOfRange = 32,
    // request: eight of the lane's deadlines lie ahead
    LaneAhead = 33,
    // request: every place of the queue is taken
    QueueFull = 34,
    // grant: a slot is open
    SlotOpen = 40,
    // grant: the last slot has been granted
    SlotsUsedUp = 41,
    // grant: there is no place for a poll job that is released now
    NoPlaceForRelease = 42,
    // grant: the unit is not opened
    Unopened = 43,
    // report: no slot is open that the token is of
    NotThisSlot = 50,
}

impl Refusal {
    // A method and no `u8::from`, since its name says what the number is.
    pub fn number(self) -> u8
        ensures value { result ≡ refusal_number self }
    {
        self as u8
    }
}
