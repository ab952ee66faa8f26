// The two functions that make a signed number or split one; all other arithmetic is unsigned.
ghost use Rattle.std.specs.Prelude.{◌≡◌, ◌<◌, ◌^◌};
ghost use Rattle.std.proofs.Math.IntN.{sub_ℕ};
ghost use Rattle.times.specs.inside.Signed.{apart_of};

// A number without its sign, and whether the sign is a minus.
#[derive(Clone, Copy, Debug, PartialEq, Eq)]
pub struct SignAndSize {
    pub minus: bool,
    pub size: u64,
}

pub fn apart(v: i64) -> SignAndSize
    ensures { result ≡ apart_of v }
{
    SignAndSize {
        minus: v < 0,
        size: v.unsigned_abs(),
    }
}

// a - b.
pub fn diff(a: u64, b: u64) -> i64
    requires { (a < 2 ^ 63) × (b < 2 ^ 63) }
    ensures { result ≡ sub_ℕ a b }
{
    (a as i64) - (b as i64)
}
