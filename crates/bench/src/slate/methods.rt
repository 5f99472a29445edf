ghost use Rattle.std.specs.Prelude.{◌≡◌, ℕ, ◌<◌, true, false, length, MatchOption};
ghost use Rattle.directory.specs.Directories.{keys_of};
ghost use Rattle.scheme.specs.Meaning.{quorate};
ghost use Rattle.bench.specs.Sealed.{fold_up_to, mask_of};
ghost use Rattle.bench.specs.Slates.{Holds, seen_of, signatures_of};

use crate::masked::Masked;
use crate::slate::Slate;
use directory::directory::Directory;
use values::types::Attestation;

impl Slate {
    // The slate of these attestations, if they are a quorum of different participants.
    pub fn gather(directory: &Directory, attestations: &[Attestation]) -> Option<Slate>
        ensures { MatchOption result (quorate (length (keys_of directory.now)) attestations.now ≡ false) (λ t. (quorate (length (keys_of directory.now)) attestations.now ≡ true) × Holds t attestations.now) }
    {
        if attestations.len() < directory.quorum() as usize {
            return None;
        }
        let n = directory.size();
        let mut signatures = [None; 64];
        for attestation in attestations {
            if attestation.signer >= n {
                return None;
            }
            let signer = attestation.signer as usize;
            if signatures[signer].is_some() {
                return None;
            }
            signatures[signer] = Some(attestation.signature);
        }
        Some(Slate {
            signatures,
            size: n as usize,
        })
    }

    // From 0 on, what `next` makes of the total so far, a signer and its signature, for all
    // signers, ascending.
    pub fn fold<F: Fn(u64, usize, u64) -> u64>(&self, next: F) -> u64
        requires { (total signer signature : ℕ) → signer < 64 → F.pre next total signer signature }
        ensures { (f : ℕ → ℕ → ℕ) (v : ℕ → ℕ) → ((total signer r : ℕ) → signer < 64 → F.post next total signer (signatures_of self.now signer) r → r ≡ f total (v signer)) → result ≡ fold_up_to f (length self.now.signatures) (seen_of self.now) v }
    {
        let mut total = 0;
        for (signer, place) in self.signatures[..self.size].iter().enumerate() {
            if let Some(signature) = place {
                total = next(total, signer, *signature);
            }
        }
        total
    }

    // The signers, and the seal that `grow` makes of their signatures, one after another.
    pub fn certificate<F: Fn(u64, u64) -> u64>(&self, grow: F) -> Masked
        requires { F.IsAlwaysCallable grow }
        ensures mask { result.mask ≡ mask_of (length self.now.signatures) (seen_of self.now) }
        ensures seal { (f : ℕ → ℕ → ℕ) → ((seal signature r : ℕ) → F.post grow seal signature r → r ≡ f seal signature) → result.seal ≡ fold_up_to f (length self.now.signatures) (seen_of self.now) (signatures_of self.now) }
    {
        Masked {
            mask: self.fold(|mask, signer, _| mask | 1 << signer),
            seal: self.fold(|seal, _, signature| grow(seal, signature)),
        }
    }
}
