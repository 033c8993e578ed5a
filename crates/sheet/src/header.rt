// The five bytes at the front of a sheet.
ghost use Rattle.std.specs.Prelude.{◌≡◌};
ghost use Rattle.sheet.specs.Header.{header_of};

use super::fault::ByteFault;

// The header's own bytes; the records begin behind them.
pub(crate) const HEADER_BYTES: usize = 5;

// At most so many polls and so many lanes stand on a sheet.
pub const MOST_POLLS: usize = 32;

pub const MOST_LANES: usize = 8;

// The longest name, in bytes.
pub const LONGEST_NAME: usize = 12;

// What the header says, once its three questions are answered with yes.
#[derive(Clone, Copy, Debug, PartialEq, Eq)]
pub struct Header {
    pub length: usize,
    pub polls: usize,
    pub lanes: usize,
}

pub(crate) fn read_header(bytes: &[u8]) -> Result<Header, ByteFault>
    ensures value { result ≡ header_of bytes.now }
{
    let [length_high, length_low, version, polls, lanes, ..] = bytes else {
        return Err(ByteFault::Length);
    };
    let length = usize::from(u16::from_be_bytes([*length_high, *length_low]));
    if length < HEADER_BYTES || length > bytes.len() {
        return Err(ByteFault::Length);
    }
    if *version != 1 {
        return Err(ByteFault::Version);
    }
    let polls = usize::from(*polls);
    let lanes = usize::from(*lanes);
    if polls > MOST_POLLS || lanes > MOST_LANES || polls + lanes == 0 {
        return Err(ByteFault::Counts);
    }
    Ok(Header {
        length,
        polls,
        lanes,
    })
}
