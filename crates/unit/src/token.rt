// The right to one slot. A grant gives it, and a report takes it back; it cannot be copied.
ghost use Rattle.std.specs.Prelude.{◌≡◌, true, false};
ghost use Rattle.machine.specs.Machine.{owner_of, deadline_of};

use queue::Job;

// The owner of an idle slot.
const NOBODY: u8 = 255;

// `taken` says that a report has accepted the token.
#[derive(Debug)]
pub struct Token {
    unit: u8,
    slot: u32,
    owner: u8,
    deadline: u32,
    taken: bool,
}

// A token that no report has accepted may not be let go: this is asked wherever one would be, and is the reason why an
// unreported slot is no program.
impl Drop for Token {
    fn drop(self)
        requires { self.taken ≡ true }
    {
        let Token {
            unit: _,
            slot: _,
            owner: _,
            deadline: _,
            taken: _,
        } = self;
    }
}

impl Token {
    // The token of a slot that goes to this job, or is idle.
    pub(crate) fn new(unit: u8, slot: u32, job: Option<Job>) -> Token
        ensures value { result ≡ record { unit = unit; slot = slot; owner = owner_of job; deadline = deadline_of job; taken = false } }
    {
        let (owner, deadline) = match job {
            Some(job) => (job.owner, job.deadline),
            None => (NOBODY, 0),
        };
        Token {
            unit,
            slot,
            owner,
            deadline,
            taken: false,
        }
    }

    // Lets the token go, since its report is accepted.
    pub(crate) fn take(mut self) {
        self.taken = true;
    }

    // The number of the unit whose slot it is.
    pub fn unit(&self) -> u8
        ensures value { result ≡ self.now.unit }
    {
        self.unit
    }

    pub fn slot(&self) -> u32
        ensures value { result ≡ self.now.slot }
    {
        self.slot
    }

    // The owner of the job that the slot goes to; 255 for an idle slot.
    pub fn owner(&self) -> u8
        ensures value { result ≡ self.now.owner }
    {
        self.owner
    }

    // The deadline of that job; 0 for an idle slot.
    pub fn deadline(&self) -> u32
        ensures value { result ≡ self.now.deadline }
    {
        self.deadline
    }
}
