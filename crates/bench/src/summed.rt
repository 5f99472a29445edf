ghost use Rattle.std.specs.Prelude.{◌≡◌, ◌+◌, ◌%◌};
ghost use Rattle.directory.specs.Directories.{keys_of};
ghost use Rattle.scheme.specs.Meaning.{answered};
ghost use Rattle.tags.specs.Numbers.{prime, tag_at};
ghost use Rattle.bench.specs.Sealed.{summed_meaning, summed_answer, summed_optimistic};
ghost use Rattle.bench.specs.Sealings.{summed_lawful};

use crate::masked::Masked;
use crate::slate::Slate;
use crate::tagged::tag_verdicts;
use directory::directory::Directory;
use scheme::scheme::Scheme;
use tags::number::{PRIME, number, tag};
use values::payload::Payload;
use values::types::{Attestation, Subject};

// For the trait's constant and its function both. That the function answer the trait's constant was
// tried: a proof sees its value by a ghost member beside it alone, which would ask more of every scheme.
const SUMMED_BATCHABLE: bool = true;

// A scheme that makes its certificates of sums, and so can judge a whole list by one.
#[derive(Clone, Copy, Debug, PartialEq, Eq)]
pub struct Summed {
    pub directory: Directory,
}

// Beside Listed's, with which it shares two methods of one line: one generic struct for both would give
// their callers a marker to write in each literal. The check cannot give three methods the trait's
// clauses yet, so they stand again.
impl<P: Payload> Scheme<P> for Summed {
    type Certificate = Masked;

    const BATCHABLE: bool = SUMMED_BATCHABLE;

    ghost meaning = { λ s. summed_meaning P.words s };

    ghost lawful = { λ s. summed_lawful P.words s };

    fn participants(&self) -> &Directory {
        &self.directory
    }

    fn is_batchable(&self) -> bool {
        SUMMED_BATCHABLE
    }

    fn verify_attestations(
        &mut self,
        subject: Subject<P>,
        attestations: &[Attestation],
        verdicts: &mut [bool],
    )
        ensures answer { verdicts.new ≡ answered (λ a. (summed_meaning P.words self.old).good subject a) attestations.now verdicts.old }
        ensures same { summed_meaning P.words self.new ≡ summed_meaning P.words self.old }
    {
        tag_verdicts(&self.directory, number(subject), attestations, verdicts);
    }

    fn optimistic_assemble(
        &mut self,
        subject: Subject<P>,
        attestations: &[Attestation],
    ) -> Option<Masked>
        ensures answer { result ≡ (summed_meaning P.words self.old).optimistic subject attestations.now }
        ensures same { summed_meaning P.words self.new ≡ summed_meaning P.words self.old }
    {
        self.sealed_if_valid(number(subject), attestations)
    }

    fn assemble(&mut self, subject: Subject<P>, attestations: &[Attestation]) -> Option<Masked>
        ensures answer { result ≡ (summed_meaning P.words self.old).assembled subject attestations.now }
        ensures same { summed_meaning P.words self.new ≡ summed_meaning P.words self.old }
    {
        self.sealed(attestations)
    }
}

impl Summed {
    // The certificate of a quorum, whatever its signatures are.
    fn sealed(&self, attestations: &[Attestation]) -> Option<Masked>
        ensures { result ≡ summed_answer (keys_of self.now.directory) attestations.now }
    {
        let slate = Slate::gather(&self.directory, attestations)?;
        Some(slate.certificate(add))
    }

    // The certificate of a quorum whose signatures add up to what their tags would.
    fn sealed_if_valid(&self, number: u64, attestations: &[Attestation]) -> Option<Masked>
        ensures { result ≡ summed_optimistic (keys_of self.now.directory) number attestations.now }
    {
        let slate = Slate::gather(&self.directory, attestations)?;
        let certificate = slate.certificate(add);
        let tags = slate.fold(|sum, signer, _| add(sum, self.tag_at(signer, number)));
        if certificate.seal != tags {
            return None;
        }
        Some(certificate)
    }

    // The tag of a participant, or 0 where there is none.
    fn tag_at(&self, signer: usize, number: u64) -> u64
        ensures { result ≡ tag_at (keys_of self.now.directory) number signer }
    {
        let key = self.directory.keys().get(signer).copied().unwrap_or(0);
        tag(key, number)
    }
}

// A sum with one more number in it. Both are taken modulo the prime first, so that any fit.
fn add(sum: u64, x: u64) -> u64
    ensures { result ≡ (sum + x) % prime }
{
    (sum % PRIME + x % PRIME) % PRIME
}
