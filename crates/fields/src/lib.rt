// The fields of a plan file: little-endian numbers of two and four bytes, read and written, and the running sum.
#![tactic(auto)]

ghost use Rattle.std.specs.Prelude.{◌≡◌, ℕ, List, ◌++◌, ◌+◌, ◌<◌, ◌≤◌, length};
ghost use Rattle.laws.specs.Put.{put};
ghost use Rattle.fields.specs.Number.{number2_of, number4_of, bytes2, bytes4};
ghost use Rattle.fields.specs.Sum.{sum_step, running_sum, sum_of};
ghost use Rattle.fields.specs.Inner.{bytes2-length, bytes4-length, number2_bytes, number4_bytes};

pub mod format;

// A number in a plan file (rule 8.1).
pub trait Field: Copy {
    // How many bytes it has.
    ghost bytes_long: { ℕ };

    // The number that stands at a place, and the bytes of a number.
    ghost number_of: { List ℕ → ℕ → Self };

    ghost bytes_of: { Self → List ℕ };

    // It fits its bytes.
    ghost fits: { Self → Type 0 };

    fn read(s: &[u8], at: usize) -> Self
        requires { at + bytes_long ≤ length s.now }
        ensures { result ≡ number_of s.now at };

    fn put(self, o: &mut [u8], at: usize)
        requires { at + bytes_long ≤ length o.old }
        ensures { o.new ≡ put o.old at (bytes_of self) };

    ghost bytes_of_length: { (n : Self) → length (bytes_of n) ≡ bytes_long };

    // A number's bytes are read as that number.
    ghost bytes_read: { (n : Self) (r : List ℕ) → fits n → number_of (bytes_of n ++ r) 0 ≡ n };
}

impl Field for u16 {
    ghost bytes_long = { 2 };

    ghost number_of = { number2_of };

    ghost bytes_of = { bytes2 };

    ghost fits = { λ n. n < 65_536 };

    ghost bytes_of_length = { bytes2-length };

    ghost bytes_read = { number2_bytes };

    fn read(s: &[u8], at: usize) -> u16 {
        u16::from_le_bytes([s[at], s[at + 1]])
    }

    fn put(self, o: &mut [u8], at: usize) {
        o[at..at + 2].copy_from_slice(&self.to_le_bytes());
    }
}

impl Field for u32 {
    ghost bytes_long = { 4 };

    ghost number_of = { number4_of };

    ghost bytes_of = { bytes4 };

    ghost fits = { λ n. n < 4_294_967_296 };

    ghost bytes_of_length = { bytes4-length };

    ghost bytes_read = { number4_bytes };

    fn read(s: &[u8], at: usize) -> u32 {
        u32::from_le_bytes([s[at], s[at + 1], s[at + 2], s[at + 3]])
    }

    fn put(self, o: &mut [u8], at: usize) {
        o[at..at + 4].copy_from_slice(&self.to_le_bytes());
    }
}

const SUM_START: u32 = 1;

// What the sum becomes with one more byte.
fn sum_step(sum: u32, byte: u8) -> u32
    ensures { result ≡ sum_step sum byte }
{
    sum.wrapping_mul(3).wrapping_add(u32::from(byte))
}

// What a sum that stands at start becomes over the bytes of s, from the first to the last.
fn sum_over(start: u32, s: &[u8]) -> u32
    ensures { result ≡ running_sum start s.now }
{
    let mut sum = start;
    for byte in s {
        sum = sum_step(sum, *byte);
    }
    sum
}

// The running sum of a plan file's bytes.
pub fn sum_of(s: &[u8]) -> u32
    ensures { result ≡ sum_of s.now }
{
    sum_over(SUM_START, s)
}
