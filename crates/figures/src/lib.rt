// What programs in other languages are told in numbers: a flag by one word. No function asks anything of its caller. The crates of exported
// functions put it into the memory that is lent, beside the number and the places of a refusal (`table::Told`).
#![tactic(auto)]

ghost use Rattle.std.specs.Prelude.{◌≡◌, ◌%◌, ◌^◌, ◌<◌};
ghost use Rattle.figures.specs.Figures.{flag_word, flag_in};

// The flag in one word. A place is below the events seen, so the word holds one more; of the largest number, which is no place, it is 0.
#[tactic(auto, unfolding(crate::specs::Figures::flag_word))]
pub fn flag_word(flag: Option<usize>) -> u64
    ensures { result ≡ flag_word flag % 2 ^ 64 }
{
    flag.map_or(0, |place| (place as u64).wrapping_add(1))
}

// The flag that a word is. What it was made of fits one word again.
#[tactic(auto, using(crate::proofs::Reading::value, crate::proofs::Reading::fits))]
pub fn flag_in(word: u64) -> Option<usize>
    ensures value { result ≡ flag_in word }
    ensures result_bound { flag_word result < 2 ^ 64 }
{
    word.checked_sub(1).map(|place| place as usize)
}
