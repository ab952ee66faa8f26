// One line of a page that is read: whether it is taken, and what is read so far with it.
ghost use Rattle.std.specs.Prelude.{◌≡◌, ◌-◌, ◌<◌, ◌≤◌, length, ◌≢◌, nat_le};
ghost use Rattle.text.specs.Address.{shown_address};
ghost use Rattle.lines.specs.Tokens.{same};
ghost use Rattle.desk.specs.Limits.{seat_count};
ghost use Rattle.desk.specs.Hearing.{ended_by};
ghost use Rattle.desk.specs.Seats.{used_bit, seat_with, keyed_at};
ghost use Rattle.page.specs.Version.{one};
ghost use Rattle.page.specs.Page.{seat_line};
ghost use Rattle.page.specs.inside.Tokens.{last_size};
ghost use Rattle.page.specs.inside.Taking.{Narrow, Taken, state_of, key_shown, seat_takes, seat_turn, cell_takes, cell_turn};

use crate::framed::{framed, seat_value};
use crate::line::{CELL_LINE, SEAT_LINE, put_seat_line, seat_digit};
use crate::sofar::Sofar;
use desk::hearing::{ended_by, ends_with, in_place};
use desk::key::{Key, is_key, key_in, key_of};
use desk::limits::{CELLS, SEATS};
use desk::state::Seat;
use digits::number_at;
use frames::check::{is_reply, label_at};
use frames::reply::ReplyLabel;
use text::{LF, TAB};

impl Sofar {
    // A line of a seat or of a cell: whether it is taken. If it is, one seat has changed.
    #[tactic(auto, using(crate::proofs::TakeLaws::other_line))]
    pub(crate) fn take_line(&mut self, line: &[u8]) -> bool
        requires { length line.now ≢ last_size one }
        ensures { Taken self.old line.now result self.new }
    {
        if line.len() == CELL_LINE {
            self.take_cell(line)
        } else if line.len() == SEAT_LINE {
            self.take_seat(line)
        } else {
            false
        }
    }

    // ---- a line of a seat

    fn take_seat(&mut self, line: &[u8]) -> bool
        requires { length line.now ≡ 12 }
        ensures { Taken self.old line.now result self.new }
    {
        let Some(i) = seat_value(line[0]) else {
            return false;
        };
        let k = key_shown(line);
        let ended = digit_value(line[10]);
        if !(is_key(k) & (ended <= 1)) {
            return false;
        }
        if !is_written(line, i, k, ended) {
            return false;
        }
        self.seat_turn(i, k, ended)
    }

    // The seat comes before all cells and after all lower seats, no seat has its key, and there is a cell left for its end.
    fn seat_turn(&mut self, i: usize, k: Key, ended: u32) -> bool
        requires { (i < seat_count) × (ended ≤ 1) }
        ensures taken { result ≡ seat_takes self.old i k ended }
        ensures then { state_of self.new 0 ≡ seat_turn self.old i k ended }
    {
        let waiting = self.waiting + ended;
        if !((self.count == 0)
            & (self.bits >> i == 0)
            & self.is_new(k)
            & (self.count + waiting <= CELLS as u32))
        {
            return false;
        }
        self.row[i] = Seat {
            address: k.address,
            requester: k.requester,
            number: k.number,
            held: 0,
            ended: 0,
        };
        self.bits += 1 << i;
        self.said += (ended as u64) << i;
        self.waiting = waiting;
        true
    }

    // Whether no used seat has the key.
    #[tactic(auto, using(crate::proofs::TakeLaws::key_met, desk::proofs::Below::first_more), unfolding(desk::specs::Below::first))]
    fn is_new(&self, k: Key) -> bool
        ensures { result ≡ nat_le seat_count (seat_with self.now.row self.now.bits k) }
    {
        for i in 0..SEATS {
            if self.has_key(i, k) {
                return false;
            }
        }
        true
    }

    // Whether the seat is in use and has the key.
    #[tactic(auto, unfolding(desk::specs::Seats::keyed, desk::specs::Key::same_key))]
    fn has_key(&self, i: usize, k: Key) -> bool
        requires { i < seat_count }
        ensures { result ≡ keyed_at self.now.row self.now.bits k i }
    {
        has_bit(self.bits, i) & (key_of(self.row[i]) == k)
    }

    // ---- a line of a cell

    fn take_cell(&mut self, line: &[u8]) -> bool
        requires { length line.now ≡ 52 }
        ensures { Taken self.old line.now result self.new }
    {
        let Some(i) = seat_value(line[0]) else {
            return false;
        };
        if !((line[0] == seat_digit(i)) & (line[1] == TAB) & (line[51] == LF)) {
            return false;
        }
        let frame = framed(line);
        if !is_reply(&frame) {
            return false;
        }
        self.cell_turn(i, label_at(&frame))
    }

    // The seat with one more record. If it has ended then, one seat less waits.
    fn cell_turn(&mut self, i: usize, label: ReplyLabel) -> bool
        requires { i < seat_count }
        ensures taken { result ≡ cell_takes self.old i label }
        ensures then { state_of self.new 0 ≡ cell_turn self.old i label }
    {
        let ended = ended_by(label.status);
        let waiting = self.waiting.saturating_sub(ended);
        if !self.cell_takes(i, label, waiting) {
            return false;
        }
        let seat = self.row[i];
        self.row[i] = Seat {
            held: seat.held + 1,
            ended,
            ..seat
        };
        self.count += 1;
        self.waiting = waiting;
        true
    }

    // The seat is in use, the reply has its key, and the seat takes it. It ends only a seat that is said to end, and leaves a cell for each seat that still
    // waits for its end.
    fn cell_takes(&self, i: usize, label: ReplyLabel, waiting: u32) -> bool
        requires { (i < seat_count) × (waiting ≡ self.now.waiting - ended_by label.status) }
        ensures { result ≡ cell_takes self.now i label }
    {
        let status = label.status;
        let seat = self.row[i];
        let takes = (seat.ended == 0) & in_place(seat.held, status);
        let said = !ends_with(status) | has_bit(self.said, i);
        self.has_key(i, key_in(label)) & takes & said & (self.count + 1 + waiting <= CELLS as u32)
    }
}

// Whether a seat's bit is set.
fn has_bit(bits: u64, i: usize) -> bool
    requires { i < seat_count }
    ensures { result ≡ used_bit bits i }
{
    (bits >> i) % 2 == 1
}

// The key in the line of a seat. What is no number is guessed as 0: is_written compares the line with what its key would be written as.
fn key_shown(line: &[u8]) -> Key
    requires { length line.now ≡ 12 }
    ensures { result ≡ key_shown line.now }
{
    Key {
        address: shown_address(line[2]) as u32,
        requester: line[4] as u32,
        number: number_at(line, 6, 3).unwrap_or(0) as u32,
    }
}

// The address that is shown so.
#[tactic(auto, unfolding(text::specs::Address::shown_address))]
fn shown_address(b: u8) -> u8
    ensures { result ≡ shown_address b }
{
    if b == b'-' { b' ' } else { b }
}

// The value of a digit; 0, a guess like the number's, for a byte below the digits.
fn digit_value(b: u8) -> u32
    ensures { result ≡ b - 48 }
{
    b.saturating_sub(48) as u32
}

// Whether the line is as it would be written. If not, no desk writes it.
fn is_written(line: &[u8], i: usize, k: Key, ended: u32) -> bool
    requires { (i < seat_count) × (Narrow k × (ended ≤ 1)) }
    ensures { result ≡ same (seat_line one i k ended) line.now }
{
    let mut written = [0u8; SEAT_LINE];
    put_seat_line(&mut written, 0, i, k, ended);
    written.as_slice() == line
}
