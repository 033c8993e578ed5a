// The theorem of this crate, on a contract, so that its proof is asked for.
ghost use Rattle.machine.specs.Promises.{PromisesStand};
ghost use Rattle.machine.specs.Worked.{Worked};

// Deadlines met, share kept, sections apart, never full, each pair one job, within the budget: for every history of a unit
// that was opened without refusal.
pub fn promises_stand()
    ensures kept { PromisesStand }
{}

// Histories worked out by the definitions, of units that were opened, so that the promises are about something.
pub fn worked_histories()
    ensures worked { Worked }
{}
