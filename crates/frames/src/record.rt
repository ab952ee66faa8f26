// What the kinds of frame have in common: a record is read from a frame and written to one in the same way, whatever its fields are.
ghost use Rattle.std.specs.Prelude.{◌≡◌, ℕ, List, ◌<◌, length, eqb};
ghost use Rattle.std.proofs.lemmas.List.Edits.{sets};
ghost use Rattle.digits.specs.Told.{gives, tried};
ghost use Rattle.digits.specs.Refusals.{FIELD};
ghost use Rattle.frames.specs.Refusals.{read_told};
ghost use Rattle.frames.specs.Kind.{Kind, read, wrong_in, frame_of, head_told, Wrote};

use crate::fields::write_tries;
use crate::head::head_of;
use crate::refusals::{Place, ReadRefusal, WriteRefusal};

pub(crate) trait Record: Copy {
    ghost kind: { Kind Self };

    ghost LEAD: { ℕ };

    ghost SIZE: { ℕ };

    const LEAD: u8;

    const SIZE: usize;

    // Where the byte is that spoils a wrong field.
    ghost spoils: { List ℕ → ℕ → ℕ };

    // The record that the fields of a frame hold, and the offset of the first wrong field, or 0 if none is wrong. The head of the frame was tested.
    fn held(s: &[u8]) -> (Self, u8)
        requires { gives tt ≡ head_told kind.lead kind.size s.now }
        ensures { tried (eqb result.1 0) (FIELD result.1 (spoils s.now result.1)) (gives result.0) ≡ read kind s.now };

    fn spoiled(s: &[u8], wrong: u8) -> u8
        ensures { result ≡ spoils s.now wrong };

    // The offset of the record's first wrong part, or 0 if none is wrong.
    fn wrong(self) -> u8
        ensures { result ≡ wrong_in kind self };

    // Stores the frame of a record in which nothing is wrong.
    fn put(self, out: &mut [u8])
        ensures stored { wrong_in kind self ≡ 0 → out.new ≡ sets out.old 0 (frame_of kind self) }
        ensures long { wrong_in kind self ≡ 0 → length (frame_of kind self) ≡ kind.size };

    ghost some: { (0 < LEAD) × (0 < SIZE) };

    ghost of_kind: { (LEAD ≡ kind.lead) × (SIZE ≡ kind.size) };
}

pub(crate) fn read<R: Record>(s: &[u8]) -> Result<R, ReadRefusal>
    ensures { read_told result ≡ read R.kind s.now }
{
    head_of(s, R::LEAD, R::SIZE)?;
    let (r, wrong) = R::held(s);
    judged::<R, R>(s, r, wrong)
}

// What was read of a frame, if no field is wrong.
pub(crate) fn judged<R: Record, A: Copy>(s: &[u8], got: A, wrong: u8) -> Result<A, ReadRefusal>
    ensures { read_told result ≡ tried (eqb wrong 0) (FIELD wrong (R.spoils s.now wrong)) (gives got) }
{
    if wrong == 0 {
        return Ok(got);
    }
    Err(ReadRefusal::Field(Place {
        field: wrong,
        spoiled: R::spoiled(s, wrong),
    }))
}

// Writes the frame to the first bytes of out, or changes nothing.
pub(crate) fn write<R: Record>(r: R, out: &mut [u8]) -> Result<(), WriteRefusal>
    ensures { Wrote R.kind r out.old result out.new }
{
    write_tries(r.wrong(), R::SIZE, out.len())?;
    r.put(out);
    Ok(())
}
