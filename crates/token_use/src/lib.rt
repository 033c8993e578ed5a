// How a host uses the tokens of a unit rightly: each is reported, and one that comes back is reported again. The two wrong
// uses, letting a token go and reporting it twice, are no programs (must-fail/).
#![tactic(auto)]

ghost use Rattle.std.specs.Prelude.{◌≡◌};
ghost use Rattle.std.specs.Option.{option_map_or};
ghost use Rattle.machine.specs.declared.call.Call.TheVariants.{Report};
ghost use Rattle.machine.specs.declared.refusal.Refusal.TheVariants.{NotThisSlot};
ghost use Rattle.machine.specs.Machine.{grant_refusal};
ghost use Rattle.unit.specs.Meaning.{meaning, called};
ghost use Rattle.token_use.specs.Turns.{IsOfOpenSlot, turned};

use machine::{Outcome, Refusal};
use queue::ReadyQueue;
use unit::{Token, Unit};

// Reports the token of the slot that is open, which is never refused.
fn close<Q: ReadyQueue>(unit: &mut Unit<Q>, token: Token, outcome: Outcome)
    requires open { IsOfOpenSlot token (meaning Q.bag Q.places unit.old) }
    ensures meaning { meaning Q.bag Q.places unit.new ≡ called (meaning Q.bag Q.places unit.old) (Report token.unit token.slot outcome) }
    ensures whose { Q.whose unit.new.queue ≡ Q.whose unit.old.queue }
{
    let reported = unit.report(token, outcome).is_ok();
    prove!(reported);
}

// Takes the next slot, and reports its token at once.
pub fn turn<Q: ReadyQueue>(unit: &mut Unit<Q>, outcome: Outcome) -> Result<(), Refusal>
    ensures meaning { meaning Q.bag Q.places unit.new ≡ turned (meaning Q.bag Q.places unit.old) outcome }
    ensures answer { result ≡ option_map_or Err (grant_refusal (meaning Q.bag Q.places unit.old).setup (meaning Q.bag Q.places unit.old).state) (Ok tt) }
    ensures whose { Q.whose unit.new.queue ≡ Q.whose unit.old.queue }
{
    let token = unit.grant()?;
    close(unit, token, outcome);
    Ok(())
}

// Takes the next slot, and brings its token to another unit first, which is put together around a queue and not opened. That
// has no slot open, and says so; the token comes back, and is reported to its own unit.
pub fn turn_after_detour<Q: ReadyQueue, R: ReadyQueue + Drop>(
    unit: &mut Unit<Q>,
    spare: R,
    outcome: Outcome,
) -> Result<Refusal, Refusal>
    ensures meaning { meaning Q.bag Q.places unit.new ≡ turned (meaning Q.bag Q.places unit.old) outcome }
    ensures answer { result ≡ option_map_or Err (grant_refusal (meaning Q.bag Q.places unit.old).setup (meaning Q.bag Q.places unit.old).state) (Ok NotThisSlot) }
    ensures whose { Q.whose unit.new.queue ≡ Q.whose unit.old.queue }
{
    let token = unit.grant()?;
    let mut other = Unit::new(spare);
    match other.report(token, outcome) {
        // this never comes: it would have closed a slot of the other unit
        Ok(()) => Ok(Refusal::NotThisSlot),
        Err((refusal, returned)) => {
            close(unit, returned, outcome);
            Ok(refusal)
        }
    }
}
