// Words that are lent, to be filled.
ghost use Rattle.std.specs.Prelude.{◌≡◌, [], eqb, length};
ghost use Rattle.refusals.specs.Numbers.{number_of, answer_of};
ghost use Rattle.lent.specs.Filled.{fitted_number, filled_after};

use refusals::Refusal;

// Puts what a call tells in as many words; where they are not as many, or the call declines, they stay.
#[tactic(auto, unfolding(crate::specs::Filled::fitted_number, crate::specs::Filled::filled_after))]
pub fn fill<const N: usize>(
    told: Result<[u32; N], Refusal>,
    words: &mut [u32],
) -> Result<(), Refusal>
    ensures { (number_of result ≡ fitted_number (eqb (length words.old) N) (answer_of [] told.entry).number) × (words.new ≡ filled_after (number_of result) (answer_of [] told.entry).fields words.old) }
{
    let Some(place) = words.as_mut_array() else {
        return Err(Refusal::BadLen);
    };
    *place = told?;
    Ok(())
}
