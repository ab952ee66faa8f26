// Why a frame or a record is refused, and the number of each refusal in the table.
ghost use Rattle.std.specs.Prelude.{◌≡◌};
ghost use Rattle.frames.specs.Refusals.{read_refused, write_refused};

use digits::refusal as table;
use digits::refusal::{Refusal, of_field, placed, plain};

// The offset at which a frame's first wrong field begins, and the offset of the byte that spoils it.
#[derive(Clone, Copy, Debug, PartialEq, Eq)]
pub struct Place {
    pub field: u8,
    pub spoiled: u8,
}

// In the order in which they are tested.
#[derive(Clone, Copy, Debug, PartialEq, Eq)]
pub enum ReadRefusal {
    Kind,
    Length,
    End,
    Address,
    Field(Place),
}

// Record holds the offset of the record's first wrong part.
#[derive(Clone, Copy, Debug, PartialEq, Eq)]
pub enum WriteRefusal {
    Record(u8),
    Room,
}

impl From<ReadRefusal> for Refusal {
    ghost from_gives = { λ refusal f. f ≡ read_refused refusal };

    fn from(refusal: ReadRefusal) -> Refusal {
        match refusal {
            ReadRefusal::Kind => plain(table::KIND),
            ReadRefusal::Length => plain(table::LENGTH),
            ReadRefusal::End => plain(table::END),
            ReadRefusal::Address => plain(table::ADDRESS),
            ReadRefusal::Field(place) => of_field(place.field, place.spoiled),
        }
    }
}

impl From<WriteRefusal> for Refusal {
    ghost from_gives = { λ refusal f. f ≡ write_refused refusal };

    fn from(refusal: WriteRefusal) -> Refusal {
        match refusal {
            WriteRefusal::Record(at) => placed(table::RECORD, at),
            WriteRefusal::Room => plain(table::ROOM),
        }
    }
}
