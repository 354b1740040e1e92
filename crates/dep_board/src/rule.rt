ghost use Rattle.std.specs.Prelude.{length};
ghost use Rattle.dep_board.specs.Edges.{edges_of};
ghost use Rattle.dep_board.specs.Rule.{IsKept, all_parts, blank, split_off, left_over, joined, spent};
ghost use Rattle.dep_board.specs.Steps.{looked, claimed, counted};

use crate::view::SeatView;
use atomic_table::{Join, Play, Split, TableRule};
use item_types::Seq;

/// The rows of a plan: for each step those that wait for it, in ascending order.
pub type Rows = Seq<Seq<u32>>;

/// The rule of the board of a plan. The first seat has all parts of it.
pub struct Rule;

impl TableRule<(), SeatView, Rows> for Rule {
    ghost holds = { λ rows. IsKept (length rows) (edges_of rows) };

    ghost first = { λ rows. blank all_parts (length rows) (edges_of rows) };
}

/// A load of any word.
pub struct Look;

impl Play<(), SeatView> for Look {
    ghost then = { looked };
}

/// A swap of 1 into a step's claim.
pub struct Claim;

impl Play<(), SeatView> for Claim {
    ghost then = { claimed };
}

/// A subtraction of 1 from the count of a step that waits for the one claimed last.
pub struct CountDown;

impl Play<(), SeatView> for CountDown {
    ghost then = { counted };
}

/// A new seat with empty lists and some of the parts.
pub struct HandOn;

impl Split<SeatView> for HandOn {
    ghost left = { left_over };

    ghost right = { split_off };
}

/// One seat with the lists and the parts of two.
pub struct TakeIn;

impl Join<SeatView> for TakeIn {
    ghost both = { joined };

    ghost spent = { spent };
}
