// The gate of a call: 120 comes before all else, then 101.
ghost use Rattle.std.specs.Prelude.{◌≡◌};
ghost use Rattle.answers.specs.Outcome.{outcome_of};
ghost use Rattle.steps.specs.Gate.{gate_of};

use answers::Answer;
use streams::Mark;

// 120, then 101; `fits` says whether the table fits.
#[tactic(auto, unfolding(crate::specs::Gate::gate_of))]
pub fn gate(fits: bool, mark: Mark) -> Result<(), Answer>
    ensures { result ≡ outcome_of (gate_of fits mark) }
{
    if !fits {
        return Err(Answer::DoesNotFit);
    }
    if !mark.is_open() {
        return Err(Answer::Closed);
    }
    Ok(())
}
