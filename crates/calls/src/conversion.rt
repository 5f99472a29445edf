ghost use Rattle.std.specs.Prelude.{◌≡◌, Ok};
ghost use Rattle.calls.specs.Records.{proposal_from, subject_from, vote_from, call_from, read_fields, fields_of};

use crate::call::Call;
use crate::fields::Fields;
use crate::shape::Shape;
use values::payload::{Payload, Words};
use values::refusal::Refusal;
use values::types::{Attestation, Kind, Proposal, Subject, Vote};

impl Fields {
    fn proposal<P: Payload>(&self) -> Result<Proposal<P>, Refusal>
        ensures { result ≡ proposal_from P.named self.now }
    {
        let payload = P::from_words(self.words).ok_or(Refusal::NotPayload)?;
        Ok(Proposal {
            round: self.round,
            parent: self.parent,
            payload,
        })
    }

    fn subject<P: Payload>(&self, kind: Kind) -> Result<Subject<P>, Refusal>
        ensures { result ≡ subject_from P.named kind self.now }
    {
        match kind {
            Kind::Notarize => Ok(Subject::Notarize(self.proposal()?)),
            Kind::Nullify => Ok(Subject::Nullify(self.round)),
            Kind::Finalize => Ok(Subject::Finalize(self.proposal()?)),
        }
    }

    fn vote<P: Payload>(&self, kind: Kind) -> Result<Vote<P>, Refusal>
        ensures { result ≡ vote_from P.named kind self.now }
    {
        let attestation = Attestation {
            signer: self.participant,
            signature: self.signature,
        };
        Ok(Vote {
            subject: self.subject(kind)?,
            attestation,
        })
    }

    fn call_of<P: Payload>(&self, shape: Shape) -> Result<Call<P>, Refusal>
        ensures { result ≡ call_from P.named shape self.now }
    {
        match shape {
            Shape::NetworkVote(kind) => Ok(Call::NetworkVote(self.key, self.vote(kind)?)),
            Shape::ConstructedVote(kind) => Ok(Call::ConstructedVote(self.vote(kind)?)),
            Shape::Certificate(kind) => Ok(Call::Certificate(self.subject(kind)?)),
            Shape::Leader => Ok(Call::Leader(self.participant)),
            Shape::Forward => Ok(Call::Forward(self.participant)),
            Shape::Attempt => Ok(Call::Attempt),
            Shape::MissingVoters => Ok(Call::MissingVoters(self.proposal()?)),
        }
    }
}

// The call that the fields hold.
impl<P: Payload> TryFrom<Fields> for Call<P> {
    type Error = Refusal;

    ghost try_from_gives = { λ f r. r ≡ read_fields P.named f };

    fn try_from(fields: Fields) -> Result<Call<P>, Refusal> {
        let shape = Shape::try_from((fields.call, fields.kind))?;
        if !fields.is_clear(shape.used()) {
            return Err(Refusal::UnusedByte);
        }
        fields.call_of(shape)
    }
}

// The fields that a call is written as, from which it is then read again.
impl<P: Payload> From<&Call<P>> for Fields {
    ghost from_gives = { λ c f. (f ≡ fields_of P.words c.now) × (read_fields P.named f ≡ Ok c.now) };

    fn from(call: &Call<P>) -> Fields {
        let proposal = call.proposal();
        Fields {
            call: call.number(),
            kind: call.subject().map_or(0, |subject| subject.kind().number()),
            gap: 0,
            key: call.key(),
            participant: call.participant(),
            space: 0,
            round: call.round(),
            parent: proposal.map_or(0, |proposal| proposal.parent),
            words: proposal.map_or(Words::default(), |proposal| proposal.payload.to_words()),
            signature: call.signature(),
        }
    }
}
