//! The setting `positions` of deadline by its names.

ghost use Rattle.std.specs.Prelude.{◌≡◌, ◌∷◌, [], option_map};
ghost use Rattle.blk_schedulers.specs.Positions.{positions_name, positions_of, position_named, positions_listed};

use crate::given::Numbers;
use blk_deadline::Positions;

/// The value of a setting that is one position.
const ONE: u64 = 0;

/// The value of a setting that is each direction's own.
const EACH: u64 = 1;

/// Its name.
pub fn positions_name(positions: Positions) -> &'static str
    ensures { result.now ≡ positions_name positions }
{
    match positions {
        Positions::One => "one",
        Positions::Each => "each",
    }
}

/// The positions of a value.
pub(crate) fn positions_of(value: u64) -> Positions
    ensures { result ≡ positions_of value }
{
    if value == EACH {
        Positions::Each
    } else {
        Positions::One
    }
}

/// The value of a name. None for a text that is no name.
pub(crate) fn position_named(text: &str) -> Option<u64>
    ensures { result ≡ position_named text.now }
{
    if text == "one" {
        Some(ONE)
    } else if text == "each" {
        Some(EACH)
    } else {
        None
    }
}

/// A value alone, and two.
fn one_number(value: u64) -> Numbers
    ensures { result.items ≡ value ∷ [] }
{
    let mut numbers = Numbers::new();
    numbers.push(value);
    numbers
}

fn two_numbers(first: u64, second: u64) -> Numbers
    ensures { result.items ≡ first ∷ second ∷ [] }
{
    let mut numbers = one_number(first);
    numbers.push(second);
    numbers
}

/// The values of a list of names with a comma between, each once. None for a text that is no such list.
pub(crate) fn positions_listed(text: &str) -> Option<Numbers>
    ensures { option_map (λ n. n.items) result ≡ positions_listed text.now }
{
    if text == "one" {
        Some(one_number(ONE))
    } else if text == "each" {
        Some(one_number(EACH))
    } else if text == "one,each" {
        Some(two_numbers(ONE, EACH))
    } else if text == "each,one" {
        Some(two_numbers(EACH, ONE))
    } else {
        None
    }
}
