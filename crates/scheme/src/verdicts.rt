ghost use Rattle.std.specs.Prelude.{◌≡◌, Bool};
ghost use Rattle.values.specs.declared.types.Attestation.{Attestation};
ghost use Rattle.scheme.specs.Meaning.{beside};

use values::types::Attestation;

// Changes each verdict by the attestation beside it, as far as both go.
pub fn update_each<F: Fn(Attestation, bool) -> bool>(
    verdicts: &mut [bool],
    attestations: &[Attestation],
    change: F,
)
    requires { F.IsAlwaysCallable change }
    ensures { (f : Attestation → Bool → Bool) → ((a : Attestation) (x r : Bool) → F.post change a x r → r ≡ f a x) → verdicts.new ≡ beside f attestations.now verdicts.old }
{
    // By places: `zip` over `iter_mut` was tried, and the proof did not learn what it writes.
    for (i, verdict) in verdicts.iter_mut().enumerate() {
        let Some(attestation) = attestations.get(i) else {
            break;
        };
        *verdict = change(*attestation, *verdict);
    }
}
