// The table of refusals: why a call is refused, by number. These numbers are at no other place in the code.
// They are constants, and a refusal is three numbers, because the C interface reports them so.
ghost use Rattle.std.specs.Prelude.{◌≡◌};
ghost use Rattle.digits.specs.Refusals as R;

pub const KIND: u32 = 1;

pub const LENGTH: u32 = 2;

pub const END: u32 = 3;

pub const ADDRESS: u32 = 4;

pub const FIELD: u32 = 5;

pub const RECORD: u32 = 6;

pub const ROOM: u32 = 7;

pub const TIME: u32 = 8;

pub const DESK: u32 = 9;

pub const NO_ANSWER_DUE: u32 = 10;

pub const IN_USE: u32 = 11;

pub const NO_SEAT: u32 = 12;

pub const STRAY: u32 = 13;

pub const ENDED: u32 = 14;

pub const OUT_OF_PLACE: u32 = 15;

pub const FULL: u32 = 16;

pub const NO_SUCH: u32 = 17;

pub const PAGE: u32 = 18;

// Only FIELD and RECORD have an offset, and only FIELD has the offset of a spoiled byte; for the others they are 0.
#[derive(Clone, Copy, Debug, Default, PartialEq, Eq)]
pub struct Refusal {
    pub number: u32,
    pub offset: u32,
    pub spoiled: u32,
}

pub fn plain(number: u32) -> Refusal
    ensures { result ≡ R.plain number }
{
    placed(number, 0)
}

pub fn placed(number: u32, offset: u8) -> Refusal
    ensures { result ≡ R.placed number offset }
{
    Refusal {
        number,
        offset: offset as u32,
        spoiled: 0,
    }
}

pub fn of_field(field: u8, spoiled: u8) -> Refusal
    ensures { result ≡ R.FIELD field spoiled }
{
    Refusal {
        number: FIELD,
        offset: field as u32,
        spoiled: spoiled as u32,
    }
}

// The number of a line, from 1, is in the place of the offset.
pub fn of_page(line: u32) -> Refusal
    ensures { result ≡ R.PAGE line }
{
    let spoiled = 0;
    Refusal {
        number: PAGE,
        offset: line,
        spoiled,
    }
}
