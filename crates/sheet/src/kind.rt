// What a record is of.
ghost use Rattle.std.specs.Prelude.{◌≡◌, Some, ◌==◌};
ghost use Rattle.sheet.specs.Kinds.{kind_name};
ghost use Rattle.sheet.specs.Records.{letter_of, numbers_size, kind_at};

use std::fmt;

// A record is of a poll or of a lane. The polls of a sheet come before its lanes.
#[derive(Clone, Copy, Debug, PartialEq, Eq)]
pub enum Kind {
    Poll,
    Lane,
}

impl fmt::Display for Kind {
    ghost output = { λ kind. Some (kind_name kind) };

    fn fmt<W: fmt::Write>(&self, f: &mut fmt::Formatter<W>) -> fmt::Result {
        f.write_str(match self {
            Kind::Poll => "poll",
            Kind::Lane => "lane",
        })
    }
}

impl Kind {
    // The kind that is due as record number `i` of a sheet with so many polls.
    pub(crate) fn due(polls: usize, i: usize) -> Kind
        ensures value { result ≡ kind_at polls i }
    {
        if i < polls { Kind::Poll } else { Kind::Lane }
    }

    // The bytes of its numbers.
    pub(crate) fn numbers_size(self) -> usize
        ensures value { result ≡ numbers_size self }
    {
        match self {
            Kind::Poll => 6,
            Kind::Lane => 4,
        }
    }

    pub(crate) fn has_letter(self, byte: u8) -> bool
        ensures value { result ≡ (byte == letter_of self) }
    {
        match char::from(byte) {
            'P' => self == Kind::Poll,
            'L' => self == Kind::Lane,
            _ => false,
        }
    }
}
