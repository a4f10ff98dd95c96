// The standard box for programs in other languages, as the crate `sessiondoors` has sessions for them: numbers and lent slices only. A slice is
// passed as its address, which may be null where the count is 0, and its count of elements. Nothing else is asked.
#![tactic(auto)]

ghost use Rattle.standarddoors.specs.Results.{Giving};

// Puts the rows of the standard box at the start of the memory lent. It answers false exactly when that is shorter than they are, and then
// nothing is written.
#[unsafe(no_mangle)]
pub extern "C" fn rillmoth_standard(rows: &mut [u8]) -> bool
    ensures { Giving rows.old result rows.new }
{
    if rows.len() < standard::LENGTH {
        return false;
    }
    lent::put(&standard::rows(), rows, 0);
    true
}
