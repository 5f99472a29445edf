ghost use Rattle.std.specs.Prelude.{◌≡◌, ok_or};
ghost use Rattle.std.proofs.Common.{rules};
ghost use Rattle.std.specs.Cmp.Rules.{comparing};
ghost use Rattle.values.specs.Kinds.{kind_number, kind_named, kind_of, round_of};
ghost use Rattle.values.specs.declared.refusal.Refusal.TheVariants.{UnknownCall};
ghost use Rattle.values.specs.Same.{same_proposal};

use crate::payload::Payload;
use crate::refusal::Refusal;

// A view of an epoch: what one round of voting decides.
#[derive(Clone, Copy, Debug, Default, PartialEq, Eq)]
pub struct Rnd {
    pub epoch: u64,
    pub view: u64,
}

// A block of traces put to the vote: its round, the view of its parent, and what it is.
#[derive(Clone, Copy, Debug)]
pub struct Proposal<P> {
    pub round: Rnd,
    pub parent: u64,
    pub payload: P,
}

// By hand, since a kind of payload owes its words and no equality of its own.
impl<P: Payload> PartialEq for Proposal<P> {
    ghost eq = { same_proposal P.words };

    ghost laws = { Prim.search (comparing, rules) };

    fn eq(&self, other: &Proposal<P>) -> bool {
        self.round == other.round
            && self.parent == other.parent
            && self.payload.to_words() == other.payload.to_words()
    }
}

impl<P: Payload> Eq for Proposal<P> {
    ghost laws = { Prim.search (comparing, rules) };
}

// The three kinds of votes, and of the certificates that they make.
#[derive(Clone, Copy, Debug, PartialEq, Eq)]
pub enum Kind {
    Notarize = 1,
    Nullify = 2,
    Finalize = 3,
}

// Records have no call with a kind of another number.
impl TryFrom<u8> for Kind {
    type Error = Refusal;

    ghost try_from_gives = { λ n r. r ≡ ok_or (kind_named n) UnknownCall };

    fn try_from(number: u8) -> Result<Kind, Refusal> {
        match number {
            1 => Ok(Kind::Notarize),
            2 => Ok(Kind::Nullify),
            3 => Ok(Kind::Finalize),
            _ => Err(Refusal::UnknownCall),
        }
    }
}

impl Kind {
    // The kind's number in records and in a subject's number. A cast takes no type parameter, so each
    // enum with numbers has such a method.
    pub fn number(self) -> u8
        ensures { result ≡ kind_number self }
    {
        self as u8
    }
}

// What is voted for: a kind with its proposal, or for nullify with its round alone.
#[derive(Clone, Copy, Debug)]
#[derive_where(PartialEq, Eq; P: Payload)]
pub enum Subject<P> {
    Notarize(Proposal<P>),
    Nullify(Rnd),
    Finalize(Proposal<P>),
}

impl<P: Copy> Subject<P> {
    pub fn kind(&self) -> Kind
        ensures { result ≡ kind_of self.now }
    {
        match self {
            Subject::Notarize(_) => Kind::Notarize,
            Subject::Nullify(_) => Kind::Nullify,
            Subject::Finalize(_) => Kind::Finalize,
        }
    }

    pub fn round(&self) -> Rnd
        ensures { result ≡ round_of self.now }
    {
        match self {
            Subject::Notarize(proposal) | Subject::Finalize(proposal) => proposal.round,
            Subject::Nullify(round) => *round,
        }
    }
}

// Who signed, by the participant's number, and how.
#[derive(Clone, Copy, Debug, PartialEq, Eq)]
pub struct Attestation {
    pub signer: u32,
    pub signature: u64,
}

// A signed vote of any kind.
#[derive(Clone, Copy, Debug)]
#[derive_where(PartialEq, Eq; P: Payload)]
pub struct Vote<P> {
    pub subject: Subject<P>,
    pub attestation: Attestation,
}
