ghost use Rattle.std.specs.Prelude.{◌≡◌};
ghost use Rattle.directory.specs.Directories.{keys_of};
ghost use Rattle.scheme.specs.Meaning.{every, answered};
ghost use Rattle.tags.specs.Numbers.{tagged};

use directory::directory::Directory;
use scheme::verdicts::update_each;
use tags::signing::is_tagged;
use values::types::Attestation;

// Whether all attestations are their signers'.
pub fn all_tagged(directory: &Directory, number: u64, attestations: &[Attestation]) -> bool
    ensures { result ≡ every (λ a. tagged (keys_of directory.now) number a) attestations.now }
{
    attestations
        .iter()
        .all(|a| is_tagged(directory, number, *a))
}

// Whether each attestation is its signer's, as far as there are places for verdicts.
pub fn tag_verdicts(
    directory: &Directory,
    number: u64,
    attestations: &[Attestation],
    verdicts: &mut [bool],
)
    ensures { verdicts.new ≡ answered (λ a. tagged (keys_of directory.now) number a) attestations.now verdicts.old }
{
    update_each(verdicts, attestations, |attestation, _| {
        is_tagged(directory, number, attestation)
    });
}
