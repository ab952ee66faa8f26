// A checksum over many numbers, which are taken in one after the other.
pub const START: u64 = 1;

// The digest with these numbers too. It is always below 4294967291, and each number taken in below 4294967296: the first two
// remainders change nothing.
pub fn take<T: Copy + Into<u64>>(digest: u64, items: &[T]) -> u64 {
    items
        .iter()
        .fold(digest, |sum, x| take_one(sum, (*x).into()))
}

fn take_one(digest: u64, x: u64) -> u64 {
    (digest % 4_294_967_291 * 1_000_003 + x % 4_294_967_296) % 4_294_967_291
}
