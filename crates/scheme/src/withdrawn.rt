ghost use Rattle.std.specs.Prelude.{◌≡◌};
ghost use Rattle.scheme.specs.Layers.{layered};
ghost use Rattle.scheme.specs.Meaning.{answered};
ghost use Rattle.scheme.specs.Layered.{withdrawn_lawful};

use crate::mask::{any_masked, strike};
use crate::scheme::Scheme;
use directory::directory::Directory;
use values::payload::Payload;
use values::types::{Attestation, Subject};

// A layer over any scheme, itself a scheme: the participants in its mask are withdrawn.
#[derive(Clone, Copy, Debug, PartialEq, Eq, Drop)]
pub struct Withdrawn<S> {
    pub below: S,
    pub mask: u64,
}

// Three methods write the trait's clauses again, since the check cannot give them these yet. The
// two ways of assembling are one test and one call each: a function of both would be no shorter.
impl<P: Payload, S: Scheme<P>> Scheme<P> for Withdrawn<S> {
    type Certificate = S::Certificate;

    const BATCHABLE: bool = S::BATCHABLE;

    ghost meaning = { λ s. layered S.meaning s };

    ghost lawful = { λ s. withdrawn_lawful s.mask (S.meaning s.below) (S.lawful s.below) };

    fn participants(&self) -> &Directory {
        self.below.participants()
    }

    fn is_batchable(&self) -> bool {
        self.below.is_batchable()
    }

    fn verify_attestations(
        &mut self,
        subject: Subject<P>,
        attestations: &[Attestation],
        verdicts: &mut [bool],
    )
        ensures answer { verdicts.new ≡ answered (λ a. (layered S.meaning self.old).good subject a) attestations.now verdicts.old }
        ensures same { layered S.meaning self.new ≡ layered S.meaning self.old }
    {
        self.below
            .verify_attestations(subject, attestations, verdicts);
        strike(self.mask, attestations, verdicts);
    }

    fn optimistic_assemble(
        &mut self,
        subject: Subject<P>,
        attestations: &[Attestation],
    ) -> Option<S::Certificate>
        ensures answer { result ≡ (layered S.meaning self.old).optimistic subject attestations.now }
        ensures same { layered S.meaning self.new ≡ layered S.meaning self.old }
    {
        if any_masked(self.mask, attestations) {
            return None;
        }
        self.below.optimistic_assemble(subject, attestations)
    }

    fn assemble(
        &mut self,
        subject: Subject<P>,
        attestations: &[Attestation],
    ) -> Option<S::Certificate>
        ensures answer { result ≡ (layered S.meaning self.old).assembled subject attestations.now }
        ensures same { layered S.meaning self.new ≡ layered S.meaning self.old }
    {
        if any_masked(self.mask, attestations) {
            return None;
        }
        self.below.assemble(subject, attestations)
    }
}
