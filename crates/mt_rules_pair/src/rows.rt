//! Rows of a parent of lesser depth.
ghost use Rattle.std.specs.Prelude.{◌≡◌, ◌<◌};
ghost use Rattle.mt_linear.specs.Field.{number_of};
ghost use Rattle.mt_rules_pair.specs.Pairs.{deepened};

use mt_system::System;

// A digit of a row of the parent, whose missing rows are zero. All are counted from 0.
pub(crate) fn deepened_digit(parent: &System, coordinate: u8, row: u8, column: u8) -> u8
    requires coordinate_in { coordinate < parent.now.coordinates }
    requires column_in { column < parent.now.columns }
    ensures value { result ≡ deepened parent.now coordinate row column }
    ensures element { result < number_of parent.now.order }
{
    if row < parent.depth() {
        parent.digit(coordinate, row, column)
    } else {
        0
    }
}
