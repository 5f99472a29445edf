ghost use Rattle.std.specs.Prelude.{◌≡◌};
ghost use Rattle.scheme.specs.Layers.{layered};
ghost use Rattle.scheme.specs.Meaning.{answered};

use crate::scheme::Scheme;
use crate::withdrawn::Withdrawn;
use values::payload::Payload;
use values::types::{Attestation, Subject, Vote};

// What both ways of assembling answer.
#[derive(Clone, Copy, Debug, PartialEq, Eq, Drop)]
pub struct Answers<C> {
    pub optimistic: Option<C>,
    pub assembled: Option<C>,
}

// Asks a scheme all three questions about one list, in turn.
pub fn ask<P: Payload, S: Scheme<P>>(
    scheme: &mut S,
    subject: Subject<P>,
    attestations: &[Attestation],
    verdicts: &mut [bool],
) -> Answers<S::Certificate>
    ensures verdicts { verdicts.new ≡ answered (λ a. (S.meaning scheme.old).good subject a) attestations.now verdicts.old }
    ensures optimistic { result.optimistic ≡ (S.meaning scheme.old).optimistic subject attestations.now }
    ensures assembled { result.assembled ≡ (S.meaning scheme.old).assembled subject attestations.now }
    ensures same { S.meaning scheme.new ≡ S.meaning scheme.old }
{
    scheme.verify_attestations(subject, attestations, verdicts);
    let optimistic = scheme.optimistic_assemble(subject, attestations);
    let assembled = scheme.assemble(subject, attestations);
    Answers {
        optimistic,
        assembled,
    }
}

// Asks two layers over any scheme: they mean what the outer one makes of what the inner one makes
// of the scheme. It is `ask` at that type, and says what the type means.
pub fn ask_pile<P: Payload, S: Scheme<P>>(
    pile: &mut Withdrawn<Withdrawn<S>>,
    subject: Subject<P>,
    attestations: &[Attestation],
    verdicts: &mut [bool],
) -> Answers<S::Certificate>
    ensures verdicts { verdicts.new ≡ answered (λ a. (layered (layered S.meaning) pile.old).good subject a) attestations.now verdicts.old }
    ensures optimistic { result.optimistic ≡ (layered (layered S.meaning) pile.old).optimistic subject attestations.now }
    ensures assembled { result.assembled ≡ (layered (layered S.meaning) pile.old).assembled subject attestations.now }
    ensures same { layered (layered S.meaning) pile.new ≡ layered (layered S.meaning) pile.old }
{
    ask(pile, subject, attestations, verdicts)
}

// Whether a vote's signature is good for its subject.
pub fn is_good<P: Payload, S: Scheme<P>>(scheme: &mut S, vote: Vote<P>) -> bool
    ensures answer { result ≡ (S.meaning scheme.old).good vote.subject vote.attestation }
    ensures same { S.meaning scheme.new ≡ S.meaning scheme.old }
{
    let mut verdicts = [false];
    scheme.verify_attestations(vote.subject, &[vote.attestation], &mut verdicts);
    verdicts[0]
}
