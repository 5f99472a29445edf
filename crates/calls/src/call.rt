ghost use Rattle.std.specs.Prelude.{◌≡◌, Decides};
ghost use Rattle.calls.specs.Calls.{call_number, subject_in, proposal_in, round_in, key_in, participant_in, signature_in};

use values::payload::Payload;
use values::types::{Proposal, Rnd, Subject, Vote};

// What a round is asked.
#[derive(Clone, Copy, Debug)]
#[derive_where(PartialEq, Eq; P: Payload)]
pub enum Call<P> {
    // a vote that came over the network, under the sender's key
    NetworkVote(u64, Vote<P>),
    // a vote that the station made itself
    ConstructedVote(Vote<P>),
    // a certificate that was handed in, by what it certifies
    Certificate(Subject<P>),
    // the view's leader, by its number
    Leader(u32),
    // whether the station of this number should pass the proposal on
    Forward(u32),
    // try to make a certificate
    Attempt,
    // who has not voted for this proposal
    MissingVoters(Proposal<P>),
}

impl<P: Payload> Call<P> {
    // The call's number in a record: a table, as a variant with a value takes no number of its own.
    pub(crate) fn number(&self) -> u8
        ensures { result ≡ call_number self.now }
    {
        match self {
            Call::NetworkVote(_, _) => 1,
            Call::ConstructedVote(_) => 2,
            Call::Certificate(_) => 3,
            Call::Leader(_) => 4,
            Call::Forward(_) => 5,
            Call::Attempt => 6,
            Call::MissingVoters(_) => 7,
        }
    }

    // What a vote or a certificate is for.
    pub(crate) fn subject(&self) -> Option<Subject<P>>
        ensures { result ≡ subject_in self.now }
    {
        match self {
            Call::NetworkVote(_, vote) | Call::ConstructedVote(vote) => Some(vote.subject),
            Call::Certificate(subject) => Some(*subject),
            _ => None,
        }
    }

    // The proposal that the call names.
    pub(crate) fn proposal(&self) -> Option<Proposal<P>>
        ensures { result ≡ proposal_in self.now }
    {
        if let Call::MissingVoters(proposal) = self {
            return Some(*proposal);
        }
        match self.subject()? {
            Subject::Notarize(proposal) | Subject::Finalize(proposal) => Some(proposal),
            Subject::Nullify(_) => None,
        }
    }

    // The round that the call names, or epoch 0 and view 0.
    pub(crate) fn round(&self) -> Rnd
        ensures { result ≡ round_in self.now }
    {
        match self {
            Call::NetworkVote(_, vote) | Call::ConstructedVote(vote) => vote.subject.round(),
            Call::Certificate(subject) => subject.round(),
            Call::MissingVoters(proposal) => proposal.round,
            _ => Rnd::default(),
        }
    }

    // The key of the sender, or 0.
    pub(crate) fn key(&self) -> u64
        ensures { result ≡ key_in self.now }
    {
        match self {
            Call::NetworkVote(key, _) => *key,
            _ => 0,
        }
    }

    // The signer, the leader or the station's own number, or 0.
    pub(crate) fn participant(&self) -> u32
        ensures { result ≡ participant_in self.now }
    {
        match self {
            Call::NetworkVote(_, vote) | Call::ConstructedVote(vote) => vote.attestation.signer,
            Call::Leader(leader) => *leader,
            Call::Forward(own) => *own,
            _ => 0,
        }
    }

    // The signature, or 0.
    pub(crate) fn signature(&self) -> u64
        ensures { result ≡ signature_in self.now }
    {
        match self {
            Call::NetworkVote(_, vote) | Call::ConstructedVote(vote) => vote.attestation.signature,
            _ => 0,
        }
    }
}

// Equality by name, as of all values: a rule of the project.
pub fn same_call<P: Payload>(a: &Call<P>, b: &Call<P>) -> bool
    ensures { Decides result (a.now ≡ b.now) }
{
    a == b
}
