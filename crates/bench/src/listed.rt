ghost use Rattle.std.specs.Prelude.{◌≡◌, ◌+◌, ◌*◌, ◌%◌};
ghost use Rattle.directory.specs.Directories.{keys_of};
ghost use Rattle.scheme.specs.Meaning.{answered};
ghost use Rattle.tags.specs.Numbers.{prime};
ghost use Rattle.bench.specs.Sealed.{listed_meaning, listed_answer};
ghost use Rattle.bench.specs.Sealings.{listed_lawful};

use crate::masked::Masked;
use crate::slate::Slate;
use crate::tagged::{all_tagged, tag_verdicts};
use directory::directory::Directory;
use scheme::scheme::Scheme;
use tags::number::{PRIME, number};
use values::payload::Payload;
use values::types::{Attestation, Subject};

// For the trait's constant and its function both. That the function answer the trait's constant was
// tried: a proof sees its value by a ghost member beside it alone, which would ask more of every scheme.
const LISTED_BATCHABLE: bool = false;

// A scheme that judges each attestation, and whose seal lists the signatures in the order of their
// signers.
#[derive(Clone, Copy, Debug, PartialEq, Eq)]
pub struct Listed {
    pub directory: Directory,
}

// Beside Summed's, with which it shares two methods of one line: one generic struct for both would give
// their callers a marker to write in each literal. The check cannot give three methods the trait's
// clauses yet, so they stand again.
impl<P: Payload> Scheme<P> for Listed {
    type Certificate = Masked;

    const BATCHABLE: bool = LISTED_BATCHABLE;

    ghost meaning = { λ s. listed_meaning P.words s };

    ghost lawful = { λ s. listed_lawful P.words s };

    fn participants(&self) -> &Directory {
        &self.directory
    }

    fn is_batchable(&self) -> bool {
        LISTED_BATCHABLE
    }

    fn verify_attestations(
        &mut self,
        subject: Subject<P>,
        attestations: &[Attestation],
        verdicts: &mut [bool],
    )
        ensures answer { verdicts.new ≡ answered (λ a. (listed_meaning P.words self.old).good subject a) attestations.now verdicts.old }
        ensures same { listed_meaning P.words self.new ≡ listed_meaning P.words self.old }
    {
        tag_verdicts(&self.directory, number(subject), attestations, verdicts);
    }

    fn optimistic_assemble(
        &mut self,
        subject: Subject<P>,
        attestations: &[Attestation],
    ) -> Option<Masked>
        ensures answer { result ≡ (listed_meaning P.words self.old).optimistic subject attestations.now }
        ensures same { listed_meaning P.words self.new ≡ listed_meaning P.words self.old }
    {
        self.sealed(number(subject), attestations)
    }

    fn assemble(&mut self, subject: Subject<P>, attestations: &[Attestation]) -> Option<Masked>
        ensures answer { result ≡ (listed_meaning P.words self.old).assembled subject attestations.now }
        ensures same { listed_meaning P.words self.new ≡ listed_meaning P.words self.old }
    {
        self.sealed(number(subject), attestations)
    }
}

impl Listed {
    // The certificate of a quorum whose attestations are all good.
    fn sealed(&self, number: u64, attestations: &[Attestation]) -> Option<Masked>
        ensures { result ≡ listed_answer (keys_of self.now.directory) number attestations.now }
    {
        let slate = Slate::gather(&self.directory, attestations)?;
        if !all_tagged(&self.directory, number, attestations) {
            return None;
        }
        Some(slate.certificate(list))
    }
}

// A seal with one more signature in it. Both are taken modulo the prime first, so that any fit.
fn list(seal: u64, signature: u64) -> u64
    ensures { result ≡ (31 * seal + signature) % prime }
{
    (31 * (seal % PRIME) + signature % PRIME) % PRIME
}
