// What a call returns beside its answer: the state, and the row or the one seat of it that changed.
ghost use Rattle.std.specs.Prelude.{◌≡◌};
ghost use Rattle.desk.specs.Calls.{row_with, done_on};

use crate::limits::SEATS;
use crate::state::{Desk, Seat};

#[derive(Clone, Copy, Debug, PartialEq, Eq)]
pub struct Done<A> {
    pub answer: A,
    pub desk: Desk,
    pub row: [Seat; SEATS],
}

// A seat that a call changed, and its place.
#[derive(Clone, Copy, Debug, PartialEq, Eq)]
pub struct Change {
    pub at: usize,
    pub seat: Seat,
}

// The same for a caller who stores only the seat that changed. A call that is refused changes none.
#[derive(Clone, Copy, Debug, PartialEq, Eq)]
pub struct Step<A> {
    pub answer: A,
    pub desk: Desk,
    pub changed: Option<Change>,
}

impl<A> Step<A> {
    // On the row before the call.
    pub(crate) fn on(self, row: [Seat; SEATS]) -> Done<A>
        ensures { result ≡ done_on row self }
    {
        Done {
            answer: self.answer,
            desk: self.desk,
            row: row_with(row, self.changed),
        }
    }
}

fn row_with(row: [Seat; SEATS], changed: Option<Change>) -> [Seat; SEATS]
    ensures { result ≡ row_with row changed }
{
    let mut after = row;
    if let Some(change) = changed {
        if change.at < SEATS {
            after[change.at] = change.seat;
        }
    }
    after
}
