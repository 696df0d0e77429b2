// Bytes of a slice, and bytes that are put into a lent one, one behind the other; what does not fit is left out. specs/Text says what text is in bytes.
#![tactic(auto)]

ghost use Rattle.std.specs.Prelude.{◌≡◌, List, [], ◌∷◌, ◌⊎◌, ℕ, ◌+◌, ◌≤◌, ◌<◌, ◌%◌, length, get_or};
ghost use Rattle.definition.specs.Lists.{padded};
ghost use Rattle.definition.specs.Trays.{two, over};
ghost use Rattle.slices.specs.Written.{Written, Puts};

// Byte i; 0 beyond the end.
pub fn byte_at(bytes: &[u8], i: usize) -> u8
    ensures { result ≡ get_or bytes.now i 0 }
{
    bytes.get(i).copied().unwrap_or(0)
}

// One byte at a position; beyond the end, nothing. The slice and the position are arguments, and no writer's fields, since document 01
// has the writer's functions stand over a function of a slice.
#[tactic(auto, using(crate::proofs::Writing::puts_full, crate::proofs::Writing::puts_one))]
pub fn put(slice: &mut [u8], at: usize, b: u8) -> usize
    ensures { Puts (b ∷ []) at slice.old result slice.new
        × (length slice.old ≤ at → (result ≡ at) × (slice.new ≡ slice.old)) }
{
    if slice.len() <= at {
        return at;
    }
    slice[at] = b;
    at + 1
}

// Two bytes, the low one first; where there is room for one only, the low one.
pub fn put_two(slice: &mut [u8], at: usize, n: u16) -> usize
    ensures { Puts (two n) at slice.old result slice.new
        × (length slice.old ≡ at + 1 → Puts (n % 256 ∷ []) at slice.old result slice.new)
        × (length slice.old ≤ at → (result ≡ at) × (slice.new ≡ slice.old)) }
{
    let [low, high] = n.to_le_bytes();
    let next = put(slice, at, low);
    put(slice, next, high)
}

// Zeros from a position to an end; a slice that is shorter is left.
#[tactic(auto, using(crate::proofs::Writing::written_length, crate::proofs::Writing::zeros_filled, crate::proofs::Writing::zeros_none))]
pub fn put_zeros(slice: &mut [u8], at: usize, end: usize)
    ensures { ((lent w : List ℕ) → Written lent w at slice.old → length w ≤ end → end ≤ length lent → slice.new ≡ over (padded end w) lent)
        × ((length slice.old < end) ⊎ (end ≤ at) → slice.new ≡ slice.old) }
{
    if slice.len() < end {
        return;
    }
    if end < at {
        return;
    }
    slice[at..end].fill(0);
}
