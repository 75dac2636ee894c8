//! Laws over the definitions alone. A law takes nothing, does nothing and answers nothing.

ghost use Rattle.pyr_bundle.specs.Faults.{OneFaultIsTold};
ghost use Rattle.pyr_bundle.specs.Values.{AnyOrderGivesTheValues, EveryDatumHasAValue};

use pyr_seq as seq;

/// Any two orders in which the tasks of a bundle can run one by one give the same values.
pub fn any_order_gives_the_values()
    ensures { AnyOrderGivesTheValues }
{
    seq::any_order_gives_the_values();
}

/// Where the tasks of a bundle run one by one, every datum ends up with as many words as its length
/// says.
pub fn every_datum_has_a_value()
    ensures { EveryDatumHasAValue }
{
    seq::values_have_lengths();
}

/// Of the same parts one law is told at most, with one place, and none where every law is kept.
pub fn one_fault_is_told()
    ensures { OneFaultIsTold }
{}
