// Prefix arithmetic on keys: an address of w bits, w at most 64, as a u64 with its first bit on top. One contract for every width, every length taken.

ghost use Rattle.std.specs.Prelude.{◌≡◌, ◌||◌, ◌&&◌, ℕ, ◌-◌, ◌≤◌, ltb, eqb};
ghost use Rattle.theory.specs.Results.{start_of};
ghost use Rattle.words.specs.Prefix.{within, host_clear};
ghost use Rattle.words.specs.Keys.{key_of};

// The key without the bits past the length: the key of the prefix's start. From length 64 on it is the key itself.
pub fn masked_key(key: u64, len: u8) -> u64
    ensures { (w a : ℕ) → w ≤ 64 → key ≡ key_of w a → result ≡ key_of w (start_of (w - len) a) }
{
    if 64 <= len {
        return key;
    }
    if len == 0 {
        return 0;
    }
    let below = 64 - len;
    (key >> below) << below
}

// Are the bits of the key past the length clear?
pub fn key_host_bits_clear(key: u64, len: u8) -> bool
    ensures { (w a : ℕ) → w ≤ 64 → key ≡ key_of w a → result ≡ host_clear w a len }
{
    masked_key(key, len) == key
}

// Does the prefix of `key` and `len` contain that of `other` and `other_len`? A prefix contains itself; bits past the lengths don't count.
pub fn key_contains(key: u64, len: u8, other: u64, other_len: u8) -> bool
    ensures { (w a b : ℕ) → w ≤ 64 → key ≡ key_of w a → other ≡ key_of w b → result ≡ within w a len b other_len }
{
    if len > other_len {
        return false;
    }
    masked_key(other, len) == masked_key(key, len)
}

// Key a and length l stand strictly before key b and length m. Keys stand as their addresses do.
pub fn key_comes_before(a: u64, l: u8, b: u64, m: u8) -> bool
    ensures { (w x y : ℕ) → a ≡ key_of w x → b ≡ key_of w y → result ≡ (ltb x y || (eqb x y && ltb l m)) }
{
    (a, l) < (b, m)
}
