ghost use Rattle.std.specs.Prelude.{◌≡◌, ◌<◌, ◌≤◌, [], ◌∷◌, map, length, IfSome};
ghost use Rattle.directory.specs.Directories.{keys_of, faults, quorum, ascending, directory_of, place_of};
ghost use Rattle.std.specs.Result.{result_map_both};

use crate::directory::Directory;
use values::refusal::Refusal;

impl Directory {
    // A directory of these keys: 1 to 64 of them, strictly ascending.
    pub fn new(keys: &[u64]) -> Result<Directory, Refusal>
        ensures { result_map_both keys_of (λ e. e) result ≡ directory_of keys.now }
    {
        let n = keys.len();
        if n == 0 || n > 64 {
            return Err(Refusal::DirectorySize);
        }
        if !ascends(keys) {
            return Err(Refusal::DirectoryOrder);
        }
        let mut table = [0; 64];
        table[..n].copy_from_slice(keys);
        Ok(Directory {
            keys: table,
            count: n as u32,
        })
    }

    // How many participants there are, n.
    pub fn size(&self) -> u32
        ensures value { result ≡ length (keys_of self.now) }
        ensures least { 0 < result }
        ensures most { result ≤ 64 }
    {
        self.count
    }

    // How many of them may be faulty, f.
    pub fn faults(&self) -> u32
        ensures { result ≡ faults (length (keys_of self.now)) }
    {
        (self.count - 1) / 3
    }

    // How many make a quorum, q.
    pub fn quorum(&self) -> u32
        ensures { result ≡ quorum (length (keys_of self.now)) }
    {
        self.size() - self.faults()
    }

    // The participants' keys, in the order of their numbers.
    pub fn keys(&self) -> &[u64]
        ensures { result.now ≡ keys_of self.now }
    {
        &self.keys[..self.count as usize]
    }

    // The number of a participant, by its key.
    pub fn index(&self, key: u64) -> Option<u32>
        ensures { result ≡ place_of key (keys_of self.now) }
    {
        place(self.keys(), key).map(|place| place as u32)
    }
}

// Whether each key is above the one before it.
fn ascends(keys: &[u64]) -> bool
    ensures { result ≡ ascending keys.now }
{
    keys.iter()
        .zip(keys.iter().skip(1))
        .all(|(low, high)| low < high)
}

// Where a key stands, from 0.
fn place(keys: &[u64], key: u64) -> Option<usize>
    ensures value { result ≡ place_of key keys.now }
    ensures within { IfSome result (λ i. i < length keys.now) }
{
    keys.iter().position(|own| *own == key)
}

// The quorums of 1, 3, 4, 7 and 64 participants.
pub fn worked_quorums() -> [u32; 5]
    ensures values { result ≡ 1 ∷ 3 ∷ 3 ∷ 5 ∷ 43 ∷ [] }
    ensures quorums { result ≡ map quorum (1 ∷ 3 ∷ 4 ∷ 7 ∷ 64 ∷ []) }
{
    [1, 3, 3, 5, 43]
}
