ghost use Rattle.std.specs.Prelude.{◌≡◌, ◌≤◌, ℕ, None, length, slice_index_or};

pub mod methods;

// Attestations of different participants, laid out by their signers' numbers: what each of `size`
// participants signed, if it did. A table of fixed size is a rule of the project: a scheme needs no
// memory. No place behind the participants' is taken, so that a fold need not look there.
#[derive(Clone, Copy, Debug, PartialEq, Eq)]
pub struct Slate {
    signatures: [Option<u64>; 64],
    size: usize,
    ghost table: { length signatures ≡ 64 },
    ghost most: { size ≤ 64 },
    ghost free: { (i : ℕ) → size ≤ i → slice_index_or signatures i None ≡ None },
}
