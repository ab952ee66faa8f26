// The sum of all bytes of a text, modulo 65,536.
ghost use Rattle.std.specs.Prelude.{◌≡◌, ◌%◌};
ghost use Rattle.page.specs.Sum.{sum_of, sum_modulus};

#[tactic(auto, using(crate::proofs::SumLaws::sum_more), unfolding(crate::specs::Sum::sum_of))]
pub fn page_sum(s: &[u8]) -> u16
    ensures { result ≡ sum_of s.now % sum_modulus }
{
    let mut sum: u16 = 0;
    for b in s {
        sum = sum.wrapping_add(u16::from(*b));
    }
    sum
}
