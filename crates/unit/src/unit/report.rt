// What came of a slot.
ghost use Rattle.std.specs.Prelude.{◌≡◌, IfErr};
ghost use Rattle.machine.specs.declared.call.Call.TheVariants.{Report};
ghost use Rattle.unit.specs.Meaning.{meaning, called, answered, as_report};

use super::super::token::Token;
use super::Unit;
use machine::{Outcome, Refusal};
use queue::ReadyQueue;

impl<Q: ReadyQueue> Unit<Q> {
    // Hears what came of the open slot, and closes it. A token of another slot comes back.
    pub fn report(&mut self, token: Token, outcome: Outcome) -> Result<(), (Refusal, Token)>
        ensures meaning { meaning Q.bag Q.places self.new ≡ called (meaning Q.bag Q.places self.old) (Report token.unit token.slot outcome) }
        ensures answer { as_report result ≡ answered (meaning Q.bag Q.places self.old) (Report token.unit token.slot outcome) }
        ensures back { IfErr result (λ refused. refused.1 ≡ token) }
        ensures whose { Q.whose self.new.queue ≡ Q.whose self.old.queue }
    {
        if !self.is_open || token.unit() != self.number || token.slot() != self.slot {
            return Err((Refusal::NotThisSlot, token));
        }
        token.take();
        match outcome {
            Outcome::Used => self.queue.spend(),
            Outcome::Finished => self.queue.drop_first(),
        };
        self.is_open = false;
        self.slot += 1;
        Ok(())
    }
}
