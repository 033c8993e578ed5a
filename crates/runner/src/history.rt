// How calls are made one after another.
ghost use Rattle.std.specs.Prelude.{◌≡◌, IfSome, is_some, IfOk, IfErr, MatchResult, Ok, Some, None, take, drop};
ghost use Rattle.admission.specs.Contents.{contents};
ghost use Rattle.machine.specs.Machine.{open_refusal, set_up};
ghost use Rattle.machine.specs.Promises.{EveryHistoryKeeps};
ghost use Rattle.unit.specs.Meaning.{meaning, called, answered, as_grant, as_report};
ghost use Rattle.runner.specs.Running.{made, machine_after, answers_to, OfSlot};

use admission::Table;
use machine::{Answer, Call, Refusal, Reply};
use queue::ReadyQueue;
use unit::{Token, Unit};

// The token of a granted slot is in hand, and its numbers are the answer.
fn granted(token: Token) -> (Option<Token>, Answer)
    ensures token { result.0 ≡ Some token }
    ensures answer { result.1 ≡ as_grant (Ok token) }
{
    let reply = Reply::Granted {
        unit: token.unit(),
        slot: token.slot(),
        owner: token.owner(),
        deadline: token.deadline(),
    };
    (Some(token), Ok(reply))
}

// After an accepted report no token is in hand; one that comes back still is.
fn reported(heard: Result<(), (Refusal, Token)>) -> (Option<Token>, Answer)
    ensures token { MatchResult heard (λ done. result.0 ≡ None) (λ refused. result.0 ≡ Some refused.1) }
    ensures answer { result.1 ≡ as_report heard }
{
    match heard {
        Ok(()) => (None, Ok(Reply::Reported)),
        Err((refusal, token)) => (Some(token), Err(refusal)),
    }
}

// Makes a call. The token in hand, if there is one, is that of the open slot; a report of any other finds no token.
fn step<Q: ReadyQueue>(
    unit: &mut Unit<Q>,
    held: Option<Token>,
    call: Call,
) -> (Option<Token>, Answer)
    requires held { is_some held ≡ (meaning Q.bag Q.places unit.old).state.is_open }
    requires own { IfSome held (λ token. OfSlot (meaning Q.bag Q.places unit.old) token) }
    ensures meaning { meaning Q.bag Q.places unit.new ≡ called (meaning Q.bag Q.places unit.old) call }
    ensures answer { result.1 ≡ answered (meaning Q.bag Q.places unit.old) call }
    ensures held { is_some result.0 ≡ (meaning Q.bag Q.places unit.new).state.is_open }
    ensures own { IfSome result.0 (λ token. OfSlot (meaning Q.bag Q.places unit.new) token) }
    ensures whose { Q.whose unit.new.queue ≡ Q.whose unit.old.queue }
{
    match call {
        Call::Request { lane, budget } => (held, unit.request(lane, budget).map(Reply::Deadline)),
        Call::Grant => match unit.grant() {
            Ok(token) => granted(token),
            Err(refusal) => (held, Err(refusal)),
        },
        Call::Report {
            unit: number,
            slot,
            outcome,
        } => match held {
            Some(token) if token.unit() == number && token.slot() == slot => {
                reported(unit.report(token, outcome))
            }
            held => (held, Err(Refusal::NotThisSlot)),
        },
    }
}

// Opens the unit and makes the calls, one after another, as many as there are places for answers. A token is held from its
// grant to its report; the one that is left in the end comes back.
pub fn run<Q: ReadyQueue>(
    unit: &mut Unit<Q>,
    table: &Table,
    number: u8,
    calls: &[Call],
    answers: &mut [Answer],
) -> Result<Option<Token>, Refusal>
    ensures opened { IfOk result (λ held. open_refusal (meaning Q.bag Q.places unit.old) (contents table.now) ≡ None) }
    ensures answers { IfOk result (λ held. take (made calls.now answers.old) answers.new ≡ answers_to (set_up (Q.places unit.old.queue) (contents table.now) number) (take (made calls.now answers.old) calls.now)) }
    ensures rest { IfOk result (λ held. drop (made calls.now answers.old) answers.new ≡ drop (made calls.now answers.old) answers.old) }
    ensures meaning { IfOk result (λ held. meaning Q.bag Q.places unit.new ≡ machine_after (set_up (Q.places unit.old.queue) (contents table.now) number) (take (made calls.now answers.old) calls.now)) }
    ensures promises { IfOk result (λ held. EveryHistoryKeeps (set_up (Q.places unit.old.queue) (contents table.now) number)) }
    ensures held { IfOk result (λ held. is_some held ≡ (meaning Q.bag Q.places unit.new).state.is_open) }
    ensures own { IfOk result (λ held. IfSome held (λ token. OfSlot (meaning Q.bag Q.places unit.new) token)) }
    ensures refusal { IfErr result (λ refusal. open_refusal (meaning Q.bag Q.places unit.old) (contents table.now) ≡ Some refusal) }
    ensures unchanged { IfErr result (λ refusal. meaning Q.bag Q.places unit.new ≡ meaning Q.bag Q.places unit.old) }
    ensures untouched { IfErr result (λ refusal. answers.new ≡ answers.old) }
    ensures whose { Q.whose unit.new.queue ≡ Q.whose unit.old.queue }
{
    unit.open(table, number)?;
    let mut held = None;
    // by index, since nothing is known of what was written through `iter_mut` once a `zip` over it has ended
    for i in 0..calls.len().min(answers.len()) {
        (held, answers[i]) = step(unit, held, calls[i]);
    }
    Ok(held)
}
