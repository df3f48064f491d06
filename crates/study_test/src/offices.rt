// The claims of the offices, four for each: those of the list with benefits, some of them in cell 1.
use crate::claims::{claim, closed, still_open};
use crate::weights::weighing;
use claim_months::Claim;

// A claim in the second cell.
fn in_cell_1(claim: Claim, benefit: u8) -> Claim {
    Claim {
        cell: 1,
        benefit,
        ..claim
    }
}

// The claim at a place of the offices' list.
pub(crate) fn office_claim(place: u32) -> Claim {
    match place {
        // One open, and one closed by each code.
        0 => weighing(0, 0),
        1 => weighing(1, 200),
        2 => weighing(2, 17),
        3 => weighing(3, 3),
        4 => weighing(4, 100),
        5 => weighing(5, 1),
        16 => weighing(23, 50),
        // A recovery 45 days before the maximum date, and 46.
        6 => weighing(6, 42),
        7 => weighing(7, 99),
        // Cell 1, from duration 2.
        8 => in_cell_1(still_open(20120114, 20120131), 8),
        9 => in_cell_1(closed(20120101, 20120116, 20130228, 2), 0),
        19 => in_cell_1(closed(20110101, 20110116, 20110220, 2), 7),
        // Durations past 480: by a long elimination period, and by many months.
        10 => weighing(10, 200),
        11 => weighing(11, 2),
        // No months from 2009 to 2017; closed only after them.
        12 => weighing(12, 11),
        13 => weighing(13, 12),
        14 => in_cell_1(claim(14), 13),
        // Refused 2 and 16.
        15 => weighing(15, 0),
        17 => weighing(0, 201),
        // The second claim once more.
        _ => weighing(1, 200),
    }
}
