ghost use Rattle.std.specs.Prelude.{◌≡◌};
ghost use Rattle.values.specs.declared.types.Subject.{Subject};
ghost use Rattle.directory.specs.Directories.{keys_of};
ghost use Rattle.scheme.specs.Meaning.{Meaning, Lawful, answered};

use directory::directory::Directory;
use values::payload::Payload;
use values::types::{Attestation, Subject};

// How the participants' attestations are judged and made into certificates. What it answers is
// its meaning, which no question changes; it may still keep count of what it is asked.
pub trait Scheme<P: Payload> {
    type Certificate;

    // Whether judging many attestations at once is cheaper than judging each as it comes.
    const BATCHABLE: bool;

    ghost meaning: { Self → Meaning (Subject P) Self.Certificate };

    fn participants(&self) -> &Directory
        ensures { keys_of result.now ≡ (meaning self.now).keys };

    // What the constant says, tied to the meaning.
    fn is_batchable(&self) -> bool
        ensures { result ≡ (meaning self.now).batchable };

    // Whether each attestation is good for the subject: a verdict for each, as far as there are
    // places for verdicts. The other places stay as they were.
    fn verify_attestations(
        &mut self,
        subject: Subject<P>,
        attestations: &[Attestation],
        verdicts: &mut [bool],
    )
        ensures answer { verdicts.new ≡ answered (λ a. (meaning self.old).good subject a) attestations.now verdicts.old }
        ensures same { meaning self.new ≡ meaning self.old };

    // A certificate of attestations that need not have been judged, or nothing.
    fn optimistic_assemble(
        &mut self,
        subject: Subject<P>,
        attestations: &[Attestation],
    ) -> Option<Self::Certificate>
        ensures answer { result ≡ (meaning self.old).optimistic subject attestations.now }
        ensures same { meaning self.new ≡ meaning self.old };

    // A certificate, or nothing. The caller has judged the attestations and found them good; what is
    // answered for others is the scheme's own.
    fn assemble(
        &mut self,
        subject: Subject<P>,
        attestations: &[Attestation],
    ) -> Option<Self::Certificate>
        ensures answer { result ≡ (meaning self.old).assembled subject attestations.now }
        ensures same { meaning self.new ≡ meaning self.old };

    ghost lawful: { (s : Self) → Lawful (meaning s) };
}
