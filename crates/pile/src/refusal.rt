// Why an element is not put.
ghost use Rattle.std.specs.Prelude.{◌≡◌};
ghost use Rattle.pile.specs.Piles.{put_number};

#[derive(Clone, Copy, Debug, PartialEq, Eq)]
pub enum PutRefusal {
    // no place is free
    Full = 34,
}

impl PutRefusal {
    // A method and no `u8::from`, since its name says what the number is.
    pub fn number(self) -> u8
        ensures value { result ≡ put_number self }
    {
        self as u8
    }
}
