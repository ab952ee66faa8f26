// The bytes that every kind has: lead byte, R and address first, CR last.
ghost use Rattle.std.specs.Prelude.{◌≡◌, [], ◌∷◌, ◌<◌};
ghost use Rattle.std.proofs.lemmas.List.Edits.{sets};
ghost use Rattle.frames.specs.Refusals.{verdict_told};
ghost use Rattle.frames.specs.Kind.{letter_r, head_told};

use crate::fields::is_address;
use crate::refusals::ReadRefusal;
use digits::{byte_at, put_byte};

pub const LETTER: u8 = b'R';

// Where the address is.
pub const ADDRESS: usize = 2;

pub const CR: u8 = 13;

// Tests lead byte, length, last byte, R and address, before any field.
#[tactic(auto, using(crate::proofs::HeadLaws::head_kind, crate::proofs::HeadLaws::head_length, crate::proofs::HeadLaws::head_end, crate::proofs::HeadLaws::head_letter, crate::proofs::HeadLaws::head_address, crate::proofs::HeadLaws::head_good))]
pub fn head_of(s: &[u8], lead: u8, size: usize) -> Result<(), ReadRefusal>
    requires { (0 < lead) × (0 < size) }
    ensures { verdict_told result ≡ head_told lead size s.now }
{
    if byte_at(s, 0) != lead {
        return Err(ReadRefusal::Kind);
    }
    if s.len() != size {
        return Err(ReadRefusal::Length);
    }
    if byte_at(s, size - 1) != CR {
        return Err(ReadRefusal::End);
    }
    if byte_at(s, 1) != LETTER {
        return Err(ReadRefusal::Address);
    }
    if !is_address(byte_at(s, ADDRESS)) {
        return Err(ReadRefusal::Address);
    }
    Ok(())
}

// Stores the lead byte, R and the address.
pub fn put_head(out: &mut [u8], lead: u8, address: u8)
    ensures { out.new ≡ sets out.old 0 (lead ∷ letter_r ∷ address ∷ []) }
{
    put_byte(out, 0, lead);
    put_byte(out, 1, LETTER);
    put_byte(out, ADDRESS, address);
}
