// Marked numbers, one bit for each.
ghost use Rattle.std.specs.Prelude.{◌≡◌, ℕ, ◌<◌, ◌≤◌, ◌*◌, ◌/◌, ◌&&◌, ◌||◌, not, nat_eq, true, false};
ghost use Rattle.std.specs.Prelude.{length, slice_index, EachIndex};
ghost use Rattle.net_eval.specs.inner.Marks.{is_listed, is_marked};

/// Marks the number.
pub(crate) fn mark(words: &mut [u64], n: usize)
    requires { n / 64 < length words.old }
    ensures { (k : ℕ) → is_marked words.new k ≡ (is_marked words.old k || nat_eq k n) }
{
    words[n / 64] |= 1 << (n % 64);
}

/// Takes the mark from the number.
pub(crate) fn unmark(words: &mut [u64], n: usize)
    requires { n / 64 < length words.old }
    ensures { (k : ℕ) → is_marked words.new k ≡ (is_marked words.old k && not (nat_eq k n)) }
{
    words[n / 64] &= !(1 << (n % 64));
}

/// Marks each number of the list.
pub(crate) fn mark_each(words: &mut [u64], numbers: &[u32])
    requires { EachIndex numbers.now (λ i. slice_index numbers.now i / 64 < length words.old) }
    ensures { (k : ℕ) → is_marked words.new k ≡ (is_marked words.old k || is_listed numbers.now k) }
{
    for number in numbers {
        mark(words, *number as usize);
    }
}

/// The first marked number from `from` on, or one past all words.
pub(crate) fn next_marked(words: &[u64], from: usize) -> usize
    requires { length words.now < 4294967296 }
    ensures behind { from ≤ result }
    ensures none { (k : ℕ) → from ≤ k → k < result → is_marked words.now k ≡ false }
    ensures found { result < 64 * length words.now → is_marked words.now result ≡ true }
{
    let first = from / 64;
    if first >= words.len() {
        return from;
    }
    let rest = words[first] >> (from % 64);
    if rest != 0 {
        return from + rest.trailing_zeros() as usize;
    }
    for w in first + 1..words.len() {
        if words[w] != 0 {
            return 64 * w + words[w].trailing_zeros() as usize;
        }
    }
    64 * words.len()
}
