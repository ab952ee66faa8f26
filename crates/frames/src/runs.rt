// Runs of bytes: tested by a rule, and taken out of a frame.
ghost use Rattle.std.specs.Prelude.{◌≡◌, ◌+◌, ◌<◌, ℕ, Bool, length};
ghost use Rattle.frames.specs.Shape.{all_from, bytes_of};
ghost use Rattle.frames.specs.inside.Runs.{Answers};

use digits::byte_at;
use std::array::from_fn;

// Whether each byte meets the rule. Unlike `all`, this does not end early, so that many bytes are tested at once.
pub(crate) fn all_in<F: Fn(u8) -> bool>(bytes: &[u8], rule: F) -> bool
    requires { F.IsAlwaysCallable rule }
    ensures { (test : ℕ → Bool) → Answers (F.post rule) test → result ≡ all_from test bytes.now 0 (length bytes.now) }
{
    let mut good = true;
    for b in bytes {
        good = good & rule(*b);
    }
    good
}

// N bytes from a place on; past the end they are 0.
pub(crate) fn bytes_at<const N: usize>(s: &[u8], at: usize) -> [u8; N]
    requires { at + N < 256 }
    ensures { result ≡ bytes_of s.now at N }
{
    from_fn(|k| byte_at(s, at + k))
}
