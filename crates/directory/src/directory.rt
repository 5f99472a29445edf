ghost use Rattle.std.specs.Prelude.{◌≡◌, ℕ, ◌+◌, ◌<◌, ◌≤◌, length, slice_index};

pub mod methods;

// The participants' keys, strictly ascending: the first `count` places of the table. A
// participant's number is the place of its key, from 0. A table of fixed size with a count, and no
// Vec, is a rule of the project: a directory owns no memory, and is copied.
#[derive(Clone, Copy, Debug, PartialEq, Eq)]
pub struct Directory {
    keys: [u64; 64],
    count: u32,
    ghost table: { length keys ≡ 64 },
    ghost least: { 0 < count },
    ghost most: { count ≤ 64 },
    ghost ascends: { (k : ℕ) → k + 1 < count → slice_index keys k < slice_index keys (k + 1) },
}
