// What a byte says: an event byte of a trace, and an entry of a row.
ghost use Rattle.std.specs.Prelude.{◌≡◌, ◌+◌, ◌*◌};
ghost use Rattle.table.specs.Bytes.{symbol_of, next_of, leads_out};

use super::answer::Symbol;

// The symbol that an event byte stands for under a table's counts, if it is valid. Inputs are bytes 0 to 15 and outputs 128 to 143, of which a
// table has the first few. All other bytes are invalid, for any counts.
#[tactic(auto, unfolding(crate::specs::Bytes::symbol_of, model::specs::Model::event))]
pub fn event(byte: u8, inputs: u8, outputs: u8) -> Option<Symbol>
    ensures { result ≡ symbol_of byte inputs outputs }
{
    match byte {
        0..=15 if byte < inputs => Some(Symbol::Input(byte)),
        128..=143 if byte - 128 < outputs => Some(Symbol::Output(byte - 128)),
        _ => None,
    }
}

// The bytes of so many rows.
pub fn span(rows: u8, inputs: u8, outputs: u8) -> usize
    ensures { result ≡ rows * (inputs + outputs) }
{
    usize::from(rows) * (usize::from(inputs) + usize::from(outputs))
}

// The next state that the entry in a column of a state's row gives: none where the symbol is not allowed, and past the rows. The one reader
// of 255. A column of u16 reaches the end of every row that two counts of u8 give.
#[tactic(auto, unfolding(crate::specs::Bytes::next_of, model::specs::Table::entry, model::specs::Table::byte))]
pub fn next(rows: &[u8], inputs: u8, outputs: u8, state: u8, column: u16) -> Option<u8>
    ensures { result ≡ next_of rows.now inputs outputs state column }
{
    rows.get(span(state, inputs, outputs) + usize::from(column))
        .copied()
        .filter(|byte| *byte != 255)
}

// Whether an entry gives a next state that is none of the table's.
pub fn leads_out(entry: Option<u8>, states: u8) -> bool
    ensures { result ≡ leads_out states entry }
{
    entry.is_some_and(|t| states <= t)
}
