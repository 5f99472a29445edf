use calls::call::Call;
use values::payload::Digest;
use values::types::{Attestation, Proposal, Rnd, Subject, Vote};

// A call, and the bytes that its record uses past the first two: from, and up to.
#[derive(Clone, Copy)]
pub struct Sample {
    pub call: Call<Digest>,
    pub has_kind: bool,
    pub used: &'static [(usize, usize)],
}

impl Sample {
    pub(crate) fn uses(&self, at: usize) -> bool {
        self.used.iter().any(|(from, to)| *from <= at && at < *to)
    }
}

pub(crate) const ROUND: Rnd = Rnd { epoch: 1, view: 7 };

const PROPOSAL: Proposal<Digest> = Proposal {
    round: ROUND,
    parent: 6,
    payload: Digest {
        w1: 9,
        w2: 8,
        w3: 7,
        w4: 5,
    },
};

pub(crate) const SIGNED: Attestation = Attestation {
    signer: 3,
    signature: 2618,
};

const NOTARIZE: Vote<Digest> = Vote {
    subject: Subject::Notarize(PROPOSAL),
    attestation: SIGNED,
};

const NULLIFY: Vote<Digest> = Vote {
    subject: Subject::Nullify(ROUND),
    attestation: SIGNED,
};

const FINALIZE: Vote<Digest> = Vote {
    subject: Subject::Finalize(PROPOSAL),
    attestation: SIGNED,
};

// One call of each shape.
pub(crate) const SAMPLES: [Sample; 13] = [
    Sample {
        call: Call::NetworkVote(11, NOTARIZE),
        has_kind: true,
        used: &[(8, 20), (24, 80), (80, 88)],
    },
    Sample {
        call: Call::NetworkVote(11, NULLIFY),
        has_kind: true,
        used: &[(8, 20), (24, 40), (80, 88)],
    },
    Sample {
        call: Call::NetworkVote(11, FINALIZE),
        has_kind: true,
        used: &[(8, 20), (24, 80), (80, 88)],
    },
    Sample {
        call: Call::ConstructedVote(NOTARIZE),
        has_kind: true,
        used: &[(16, 20), (24, 80), (80, 88)],
    },
    Sample {
        call: Call::ConstructedVote(NULLIFY),
        has_kind: true,
        used: &[(16, 20), (24, 40), (80, 88)],
    },
    Sample {
        call: Call::ConstructedVote(FINALIZE),
        has_kind: true,
        used: &[(16, 20), (24, 80), (80, 88)],
    },
    Sample {
        call: Call::Certificate(Subject::Notarize(PROPOSAL)),
        has_kind: true,
        used: &[(24, 80)],
    },
    Sample {
        call: Call::Certificate(Subject::Nullify(ROUND)),
        has_kind: true,
        used: &[(24, 40)],
    },
    Sample {
        call: Call::Certificate(Subject::Finalize(PROPOSAL)),
        has_kind: true,
        used: &[(24, 80)],
    },
    Sample {
        call: Call::Leader(2),
        has_kind: false,
        used: &[(16, 20)],
    },
    Sample {
        call: Call::Forward(1),
        has_kind: false,
        used: &[(16, 20)],
    },
    Sample {
        call: Call::Attempt,
        has_kind: false,
        used: &[],
    },
    Sample {
        call: Call::MissingVoters(PROPOSAL),
        has_kind: false,
        used: &[(24, 80)],
    },
];
