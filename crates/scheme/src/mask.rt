ghost use Rattle.std.specs.Prelude.{◌≡◌, not, ◌&&◌};
ghost use Rattle.scheme.specs.Layers.{bit, any_masked};
ghost use Rattle.scheme.specs.Meaning.{beside};

use crate::verdicts::update_each;
use values::types::Attestation;

// Whether a participant is in the mask.
pub fn is_masked(mask: u64, signer: u32) -> bool
    ensures { result ≡ bit mask signer }
{
    signer < 64 && (mask >> signer) % 2 == 1
}

// Whether a signer of one of these is in the mask.
pub fn any_masked(mask: u64, attestations: &[Attestation]) -> bool
    ensures { result ≡ any_masked mask attestations.now }
{
    attestations.iter().any(|a| is_masked(mask, a.signer))
}

// Strikes out the verdicts on signers in the mask.
pub fn strike(mask: u64, attestations: &[Attestation], verdicts: &mut [bool])
    ensures { verdicts.new ≡ beside (λ a x. x && not (bit mask a.signer)) attestations.now verdicts.old }
{
    update_each(verdicts, attestations, |attestation, verdict| {
        verdict && !is_masked(mask, attestation.signer)
    });
}
