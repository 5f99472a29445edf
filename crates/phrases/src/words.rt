use crate::payloads::Spoken;
use calls::call::Call;
use std::fmt;
use values::refusal::Refusal;
use values::types::{Attestation, Kind, Proposal, Rnd, Subject, Vote};

// What the kinds are called.
pub(crate) struct Names {
    notarize: &'static str,
    nullify: &'static str,
    finalize: &'static str,
}

pub(crate) const VOTES: Names = Names {
    notarize: "notarize",
    nullify: "nullify",
    finalize: "finalize",
};

pub(crate) const CERTIFICATES: Names = Names {
    notarize: "notarization",
    nullify: "nullification",
    finalize: "finalization",
};

impl Names {
    fn name(&self, kind: Kind) -> &'static str {
        match kind {
            Kind::Notarize => self.notarize,
            Kind::Nullify => self.nullify,
            Kind::Finalize => self.finalize,
        }
    }

    // The kind that is called so.
    pub(crate) fn kind(&self, name: &str) -> Option<Kind> {
        [Kind::Notarize, Kind::Nullify, Kind::Finalize]
            .into_iter()
            .find(|kind| self.name(*kind) == name)
    }
}

// A value as it is printed.
#[derive(Drop)]
pub(crate) struct InWords<'a, T>(pub(crate) &'a T);

impl fmt::Display for InWords<'_, Rnd> {
    fn fmt<W: fmt::Write>(&self, f: &mut fmt::Formatter<W>) -> fmt::Result {
        let Rnd { epoch, view } = *self.0;
        write!(f, "epoch {epoch} view {view}")
    }
}

impl<P: Spoken> fmt::Display for InWords<'_, Proposal<P>> {
    fn fmt<W: fmt::Write>(&self, f: &mut fmt::Formatter<W>) -> fmt::Result {
        let Proposal {
            round,
            parent,
            payload,
        } = self.0;
        write!(f, "{} parent {parent} ", InWords(round))?;
        payload.fmt_words(f)
    }
}

impl<P: Spoken> fmt::Display for InWords<'_, Subject<P>> {
    fn fmt<W: fmt::Write>(&self, f: &mut fmt::Formatter<W>) -> fmt::Result {
        match self.0 {
            Subject::Notarize(proposal) | Subject::Finalize(proposal) => InWords(proposal).fmt(f),
            Subject::Nullify(round) => InWords(round).fmt(f),
        }
    }
}

impl<P: Spoken> fmt::Display for InWords<'_, Vote<P>> {
    fn fmt<W: fmt::Write>(&self, f: &mut fmt::Formatter<W>) -> fmt::Result {
        let Vote {
            subject,
            attestation: Attestation { signer, signature },
        } = self.0;
        let kind = VOTES.name(subject.kind());
        let subject = InWords(subject);
        write!(f, "signer {signer} {kind} {subject} signature {signature}")
    }
}

impl<P: Spoken> fmt::Display for InWords<'_, Call<P>> {
    fn fmt<W: fmt::Write>(&self, f: &mut fmt::Formatter<W>) -> fmt::Result {
        match self.0 {
            Call::NetworkVote(key, vote) => write!(f, "network vote key {key} {}", InWords(vote)),
            Call::ConstructedVote(vote) => write!(f, "constructed vote {}", InWords(vote)),
            Call::Certificate(subject) => {
                let kind = CERTIFICATES.name(subject.kind());
                write!(f, "certificate {kind} {}", InWords(subject))
            }
            Call::Leader(leader) => write!(f, "leader {leader}"),
            Call::Forward(own) => write!(f, "forward by {own}"),
            Call::Attempt => f.write_str("attempt"),
            Call::MissingVoters(proposal) => write!(f, "missing voters {}", InWords(proposal)),
        }
    }
}

// A refusal's reason, in words.
fn reason(refusal: Refusal) -> &'static str {
    match refusal {
        Refusal::DirectorySize => "no keys, or more than 64",
        Refusal::DirectoryOrder => "the keys do not ascend",
        Refusal::WrongSize => "a scheme, sheet, scratch or list is not of the directory's size",
        Refusal::OtherRound => "another epoch or view",
        Refusal::UnknownSigner => "the signer is no participant",
        Refusal::AlreadyVoted => "the signer has voted already",
        Refusal::ReleasedConflict => "the vote conflicts with an earlier one of its signer",
        Refusal::OtherLeader => "another leader is named",
        Refusal::NotAssembled => "the scheme assembles nothing",
        Refusal::ShortRecord => "fewer than 88 bytes",
        Refusal::UnknownCall => "no such call or kind",
        Refusal::UnusedByte => "a byte that the call does not use is not zero",
        Refusal::NotPayload => "the words are no payload of this kind",
    }
}

impl fmt::Display for InWords<'_, Refusal> {
    fn fmt<W: fmt::Write>(&self, f: &mut fmt::Formatter<W>) -> fmt::Result {
        let number = self.0.number();
        let why = reason(*self.0);
        write!(f, "refused {number}: {why}")
    }
}
