// The calls on an opened unit, and their answers.
use super::refusal::Refusal;

// What a report says of the slot: the job used it, or it used it and is finished.
#[derive(Clone, Copy, Debug, PartialEq, Eq)]
pub enum Outcome {
    Used,
    Finished,
}

#[derive(Clone, Copy, Debug, PartialEq, Eq)]
pub enum Call {
    // a lane asks for so many slots
    Request {
        lane: u8,
        budget: u16,
    },
    // the host takes the next slot
    Grant,
    // the host gives back a token, which has a unit number and a slot
    Report {
        unit: u8,
        slot: u32,
        outcome: Outcome,
    },
}

// What an accepted call replies.
#[derive(Clone, Copy, Debug, PartialEq, Eq)]
pub enum Reply {
    // a request gets this deadline
    Deadline(u32),
    // a slot is open; its token has these four numbers, as the rules give them: an idle slot has owner 255 and deadline 0
    Granted {
        unit: u8,
        slot: u32,
        owner: u8,
        deadline: u32,
    },
    // the slot is closed
    Reported,
}

pub type Answer = Result<Reply, Refusal>;
