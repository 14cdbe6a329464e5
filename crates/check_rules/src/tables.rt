//! Tables of numbers by type number.

ghost use Rattle.std.specs.Prelude.{◌≡◌};
ghost use Rattle.wit_model.specs.Checks.{entry_of, highest as highest_lem};

/// The entry of a number, and 0 past the end.
pub(crate) fn entry_at(table: &[usize], number: usize) -> usize
    ensures { result ≡ entry_of table.now number }
{
    table.get(number).copied().unwrap_or(0)
}

/// The greatest entry of the numbers.
pub(crate) fn highest(table: &[usize], numbers: &[usize]) -> usize
    ensures { result ≡ highest_lem (entry_of table.now) numbers.now }
{
    let mut most = 0;
    for number in numbers {
        most = entry_at(table, *number).max(most);
    }
    most
}
