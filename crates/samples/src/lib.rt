// Worked examples over sample column K: what selections from it answer and leave.
#![tactic(auto)]

ghost use Rattle.std.specs.Prelude.{◌≡◌};
ghost use Rattle.array.specs.Samples.{sample_k};
ghost use Rattle.samples.specs.Selecting.{SelectionExamples};

use array::sample::{Sample, sample_k};

// Sample column K, with what is proved of selections from it.
pub fn selected_sample() -> Sample
    ensures value { result ≡ sample_k }
    ensures examples { SelectionExamples }
{
    sample_k()
}
