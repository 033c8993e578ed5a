// Numbers that look random and are the same in every run, for rehearsals. The period is 2 to the power of 64.
#![tactic(auto)]

ghost use Rattle.std.specs.Prelude.{◌≡◌, ◌==◌, ◌%◌, if◌then◌else◌};
ghost use Rattle.dice.specs.Rolling.{next_state, face_of};

#[derive(Clone, Copy)]
pub struct Dice {
    state: u64,
}

impl Dice {
    pub fn new(seed: u64) -> Dice
        ensures state { result.state ≡ seed }
    {
        Dice { state: seed }
    }

    // The next number.
    pub fn roll(&mut self) -> u32
        ensures state { self.new.state ≡ next_state self.old.state }
        ensures value { result ≡ face_of (next_state self.old.state) }
    {
        self.state = self
            .state
            .wrapping_mul(2_862_933_555_777_941_757)
            .wrapping_add(3_037_000_493);
        (self.state >> 32) as u32
    }

    // The next number, brought below a bound; 0 where the bound is 0.
    pub fn below(&mut self, bound: u32) -> u32
        ensures state { self.new.state ≡ next_state self.old.state }
        ensures value { result ≡ if bound == 0 then 0 else face_of (next_state self.old.state) % bound }
    {
        let face = self.roll();
        if bound == 0 { 0 } else { face % bound }
    }
}
