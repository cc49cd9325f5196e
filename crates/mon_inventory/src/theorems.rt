//! A law over the definitions of an inventory's faults. It is the contract of a function that does nothing.
ghost use Rattle.std.specs.Prelude.{◌≡◌, ◌↔◌, ℕ, List, Err};
ghost use Rattle.mon_inventory.specs.declared.fault.Cause.{Cause};
ghost use Rattle.mon_inventory.specs.Configuration.{inventory_of};
ghost use Rattle.mon_inventory.specs.Read.{IsFirstFault};

/// The fault of an inventory is at its first faulty line: no line before it has a fault. The cause is the first that
/// holds of this line after the lines before it.
pub fn fault_is_the_first()
    ensures { (lines : List (List ℕ)) (number : ℕ) (cause : Cause) →
        (inventory_of lines ≡ Err (number, cause)) ↔ IsFirstFault lines number cause }
{}
