ghost use Rattle.std.specs.Prelude.{◌≡◌};
ghost use Rattle.values.specs.Numbered.{cause_number};

use crate::types::Kind;

// Why a station is to be blocked.
#[derive(Clone, Copy, Debug, PartialEq, Eq)]
pub enum Cause {
    // its key is not in the directory
    UnknownParticipant,
    // its vote carries the number of another
    SignerMismatch(Kind),
    // its vote differs from an earlier one of the kind
    Conflict(Kind),
    // it sent the same notarize or finalize before, under another signature
    InvalidSignature,
    NullifyAfterFinalize,
    FinalizeAfterNullify,
}

impl Cause {
    // The number that users see: a table, as a variant with a value takes no number of its own.
    pub fn number(self) -> u8
        ensures { result ≡ cause_number self }
    {
        match self {
            Cause::UnknownParticipant => 1,
            Cause::SignerMismatch(Kind::Notarize) => 2,
            Cause::Conflict(Kind::Notarize) => 3,
            Cause::InvalidSignature => 4,
            Cause::SignerMismatch(Kind::Nullify) => 5,
            Cause::NullifyAfterFinalize => 6,
            Cause::Conflict(Kind::Nullify) => 7,
            Cause::SignerMismatch(Kind::Finalize) => 8,
            Cause::FinalizeAfterNullify => 9,
            Cause::Conflict(Kind::Finalize) => 10,
        }
    }
}
