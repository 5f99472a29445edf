ghost use Rattle.std.specs.Prelude.{◌≡◌};
ghost use Rattle.std.specs.Option.{ok_or};
ghost use Rattle.values.specs.declared.refusal.Refusal.TheVariants.{UnknownCall};
ghost use Rattle.calls.specs.Records.{shape_named, used_by, clear, clear_in_front, clear_behind};

use crate::fields::Fields;
use values::payload::Words;
use values::refusal::Refusal;
use values::types::Kind;

// Which call a record holds and of which kind: what its first two bytes say.
#[derive(Clone, Copy, Debug, PartialEq, Eq)]
pub(crate) enum Shape {
    NetworkVote(Kind),
    ConstructedVote(Kind),
    Certificate(Kind),
    Leader,
    Forward,
    Attempt,
    MissingVoters,
}

// Which fields a record uses, besides the call's number. The others are zero.
#[derive(Clone, Copy, Debug, PartialEq, Eq)]
pub(crate) struct Used {
    pub kind: bool,
    pub key: bool,
    pub participant: bool,
    pub round: bool,
    // the parent and the payload's words
    pub proposal: bool,
    pub signature: bool,
}

// The shape that a call's number and a kind's number name.
impl TryFrom<(u8, u8)> for Shape {
    type Error = Refusal;

    ghost try_from_gives = { λ n r. r ≡ ok_or (shape_named n.0 n.1) UnknownCall };

    fn try_from((call, kind): (u8, u8)) -> Result<Shape, Refusal> {
        match call {
            1 => Ok(Shape::NetworkVote(Kind::try_from(kind)?)),
            2 => Ok(Shape::ConstructedVote(Kind::try_from(kind)?)),
            3 => Ok(Shape::Certificate(Kind::try_from(kind)?)),
            4 => Ok(Shape::Leader),
            5 => Ok(Shape::Forward),
            6 => Ok(Shape::Attempt),
            7 => Ok(Shape::MissingVoters),
            _ => Err(Refusal::UnknownCall),
        }
    }
}

impl Shape {
    // Whether the shape is of a kind that names a proposal, or asks about one.
    fn names_proposal(self) -> bool
        ensures { result ≡ (used_by self).proposal }
    {
        match self {
            Shape::NetworkVote(kind) | Shape::ConstructedVote(kind) | Shape::Certificate(kind) =>
                !matches!(kind, Kind::Nullify),
            Shape::Leader | Shape::Forward | Shape::Attempt => false,
            Shape::MissingVoters => true,
        }
    }

    pub(crate) fn used(self) -> Used
        ensures { result ≡ used_by self }
    {
        let network = matches!(self, Shape::NetworkVote(_));
        let vote = network || matches!(self, Shape::ConstructedVote(_));
        let kind = vote || matches!(self, Shape::Certificate(_));
        Used {
            kind,
            key: network,
            participant: vote || matches!(self, Shape::Leader | Shape::Forward),
            round: kind || matches!(self, Shape::MissingVoters),
            proposal: self.names_proposal(),
            signature: vote,
        }
    }
}

impl Fields {
    // Whether every field that is not used is zero.
    pub(crate) fn is_clear(&self, used: Used) -> bool
        ensures { result ≡ clear used self.now }
    {
        self.is_clear_in_front(used) && self.is_clear_behind(used)
    }

    fn is_clear_in_front(&self, used: Used) -> bool
        ensures { result ≡ clear_in_front used self.now }
    {
        (used.kind || self.kind == 0)
            && self.gap == 0
            && (used.key || self.key == 0)
            && (used.participant || self.participant == 0)
            && self.space == 0
    }

    fn is_clear_behind(&self, used: Used) -> bool
        ensures { result ≡ clear_behind used self.now }
    {
        (used.round || self.round.epoch == 0)
            && (used.round || self.round.view == 0)
            && (used.proposal || self.parent == 0)
            && (used.proposal || self.words == Words::default())
            && (used.signature || self.signature == 0)
    }
}
