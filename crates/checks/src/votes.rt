ghost use Rattle.std.specs.Prelude.{◌≡◌};
ghost use Rattle.calls.specs.Records.{read_of};
ghost use Rattle.checks.specs.Checks.{vote_in, judged, signed_vote, signed_call};
ghost use Rattle.directory.specs.Directories.{keys_of};

use calls::call::Call;
use calls::records::read;
use directory::directory::Directory;
use scheme::asking::is_good;
use scheme::scheme::Scheme;
use tags::signing::sign;
use values::payload::Payload;
use values::refusal::Refusal;
use values::types::Vote;

// The vote that a call brings, if it brings one.
pub fn vote_of<P: Payload>(call: Call<P>) -> Option<Vote<P>>
    ensures { result ≡ vote_in call }
{
    match call {
        Call::NetworkVote(_, vote) | Call::ConstructedVote(vote) => Some(vote),
        _ => None,
    }
}

// Whether a record's vote is good, if it has one.
pub fn judge<P: Payload, S: Scheme<P>>(
    scheme: &mut S,
    bytes: &[u8],
) -> Result<Option<bool>, Refusal>
    ensures answer { result ≡ judged (S.meaning scheme.old) (read_of P.named bytes.now) }
    ensures same { S.meaning scheme.new ≡ S.meaning scheme.old }
{
    let Some(vote) = vote_of(read::<P>(bytes)?) else {
        return Ok(None);
    };
    Ok(Some(is_good(scheme, vote)))
}

fn sign_vote<P: Payload>(directory: &Directory, vote: Vote<P>) -> Option<Vote<P>>
    ensures { result ≡ signed_vote P.words (keys_of directory.now) vote }
{
    let attestation = sign(directory, vote.subject, vote.attestation.signer)?;
    Some(Vote {
        attestation,
        ..vote
    })
}

// The call with a good signature on its vote, if the signer is a participant. A call without a vote
// stays as it is.
pub fn sign_call<P: Payload>(directory: &Directory, call: Call<P>) -> Option<Call<P>>
    ensures { result ≡ signed_call P.words (keys_of directory.now) call }
{
    match call {
        Call::NetworkVote(key, vote) => Some(Call::NetworkVote(key, sign_vote(directory, vote)?)),
        Call::ConstructedVote(vote) => Some(Call::ConstructedVote(sign_vote(directory, vote)?)),
        other => Some(other),
    }
}
