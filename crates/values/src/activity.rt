ghost use Rattle.std.specs.Prelude.{◌≡◌};
ghost use Rattle.values.specs.Numbered.{activity_number};

// What a reporter is told of a signer.
#[derive(Clone, Copy, Debug, PartialEq, Eq)]
pub enum Activity {
    // a vote was taken
    Notarize = 1,
    Nullify = 4,
    Finalize = 6,
    // two notarizes of one signer name different proposals
    ConflictingNotarize = 8,
    // two finalizes of one signer name different proposals
    ConflictingFinalize = 9,
    // one signer voted both nullify and finalize
    NullifyFinalize = 10,
}

impl Activity {
    // The number that users see. A cast takes no type parameter, so each enum with numbers has this.
    pub fn number(self) -> u8
        ensures { result ≡ activity_number self }
    {
        self as u8
    }
}
