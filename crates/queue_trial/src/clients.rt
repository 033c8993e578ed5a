// Code over any ready queue, proved once.
ghost use Rattle.std.specs.Prelude.{◌≡◌, [], length};
ghost use Rattle.queue_trial.specs.Operations.{after_one, after_all};

use queue::{Job, ReadyQueue};

// What is done to a queue, as a value and no closure: a list holds operations, and the definition of what they do reads them.
#[derive(Clone, Copy)]
pub enum Operation {
    Put(Job),
    Spend,
    DropFirst,
}

// Empties a queue, and says how many jobs left it.
pub fn drain<Q: ReadyQueue>(queue: &mut Q) -> usize
    ensures left { Q.ReadyQueue.bag queue.new ≡ [] }
    ensures count { result ≡ length (Q.ReadyQueue.bag queue.old) }
{
    let mut count = 0;
    while queue.drop_first() {
        count += 1;
    }
    count
}

// Makes one operation; false where the queue refused it or had nothing to do.
pub fn apply<Q: ReadyQueue>(queue: &mut Q, operation: Operation) -> bool
    ensures bag { Q.ReadyQueue.bag queue.new ≡ after_one (Q.ReadyQueue.places queue.old) (Q.ReadyQueue.bag queue.old) operation }
    ensures places { Q.ReadyQueue.places queue.new ≡ Q.ReadyQueue.places queue.old }
{
    match operation {
        Operation::Put(job) => queue.put(job).is_ok(),
        Operation::Spend => queue.spend(),
        Operation::DropFirst => queue.drop_first(),
    }
}

// Makes all operations, in their order.
pub fn run<Q: ReadyQueue>(queue: &mut Q, operations: &[Operation])
    ensures bag { Q.ReadyQueue.bag queue.new ≡ after_all (Q.ReadyQueue.places queue.old) (Q.ReadyQueue.bag queue.old) operations.now }
{
    for operation in operations {
        apply(queue, *operation);
    }
}
