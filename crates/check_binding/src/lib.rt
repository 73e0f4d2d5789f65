// Checks 10 and 11 in their order.
#![tactic(auto)]

ghost use Rattle.table.specs.Table.{table_of};
ghost use Rattle.check_binding.specs.Promises.{CheckSays};

use table::Contours;
use turn::Refusal;

// Checks 10 and 11, with so much room for owners.
pub fn check(contours: Contours, clockwise: bool, owners: usize) -> Result<(), Refusal>
    ensures { CheckSays (table_of contours.entry) owners clockwise result }
{
    check_table::check_table(contours, owners)?;
    check_anchors::check_anchors(contours, clockwise)
}
