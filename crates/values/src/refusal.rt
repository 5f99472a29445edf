ghost use Rattle.std.specs.Prelude.{◌≡◌};
ghost use Rattle.values.specs.Numbered.{refusal_number};

// Why a call was refused. A refused call changes nothing.
#[derive(Clone, Copy, Debug, PartialEq, Eq)]
pub enum Refusal {
    // a directory of no keys, or of more than 64
    DirectorySize = 1,
    // a directory whose keys do not ascend
    DirectoryOrder = 2,
    // a scheme, sheet, scratch or list that is not of the directory's size
    WrongSize = 3,
    // a vote or certificate of another epoch or view
    OtherRound = 4,
    // a constructed vote whose signer is no participant
    UnknownSigner = 5,
    // a constructed notarize or finalize whose signer's vote of that kind is kept already
    AlreadyVoted = 6,
    // a constructed vote that conflicts with what a released sheet knows of its signer
    ReleasedConflict = 7,
    // a leader other than the one named before
    OtherLeader = 8,
    // a quorum of verified votes of which the scheme assembles nothing
    NotAssembled = 9,
    // fewer bytes than a record has
    ShortRecord = 10,
    // a call or kind that no record has
    UnknownCall = 11,
    // a byte that is not zero where its call uses none
    UnusedByte = 12,
    // words that are no value of the payload kind
    NotPayload = 13,
}

impl Refusal {
    // The number that users see. A cast takes no type parameter, so each enum with numbers has this.
    pub fn number(self) -> u8
        ensures { result ≡ refusal_number self }
    {
        self as u8
    }
}
