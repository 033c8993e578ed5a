// Common measures and common multiples of lengths.
ghost use Rattle.std.specs.Prelude.{◌≡◌, ◌*◌, ◌<◌, ◌≤◌};
ghost use Rattle.std.specs.Int.{IsGcd};
ghost use Rattle.sheet.specs.Limits.{longest_span};
ghost use Rattle.admission.specs.Demand.{longest_cycle};
ghost use Rattle.admission.specs.Measure.{LeastCommonMultiple, measure_of, multiple_of};

// The greatest length that measures both, by falling remainders. With 0 it is the other one.
pub fn common_measure(a: u64, b: u64) -> u64
    ensures value { result ≡ measure_of a b }
    ensures greatest { IsGcd a b result }
{
    if b == 0 { a } else { common_measure(b, a % b) }
}

// A cycle within its limit.
#[derive(Clone, Copy)]
pub(crate) struct Cycle {
    pub(crate) slots: u64,
    ghost some: { 0 < slots },
    ghost short: { slots ≤ longest_cycle },
}

// The least length that both measure.
pub(crate) fn common_multiple(cycle: Cycle, length: u64) -> u64
    requires within { length ≤ longest_span }
    ensures value { result ≡ multiple_of cycle.slots length }
    ensures least { LeastCommonMultiple cycle.slots length result }
    ensures bound { result ≤ longest_cycle * longest_span }
{
    cycle.slots / common_measure(cycle.slots, length) * length
}
