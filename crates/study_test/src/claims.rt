// The list of claims that every study here gets.
use claim_months::Claim;
use test_support::dates::date;

// How many claims there are. A prime, so that steps of any smaller length come to each of them once.
pub(crate) const CLAIMS: u32 = 23;

fn with_cell(disability: u32, bcd: u32, cell: u16) -> Claim {
    Claim {
        number: 1,
        disability: date(disability),
        bcd: date(bcd),
        termination: date(0),
        maximum: date(0),
        status: 0,
        code: 0,
        cell,
        benefit: 0,
    }
}

pub(crate) fn still_open(disability: u32, bcd: u32) -> Claim {
    with_cell(disability, bcd, 0)
}

fn with_status(disability: u32, bcd: u32, termination: u32, status: u8, code: u8) -> Claim {
    Claim {
        number: 2,
        termination: date(termination),
        status,
        code,
        ..still_open(disability, bcd)
    }
}

pub(crate) fn closed(disability: u32, bcd: u32, termination: u32, code: u8) -> Claim {
    with_status(disability, bcd, termination, 1, code)
}

fn with_maximum(disability: u32, bcd: u32, termination: u32, maximum: u32, code: u8) -> Claim {
    Claim {
        number: 3,
        maximum: date(maximum),
        ..closed(disability, bcd, termination, code)
    }
}

// The claim at a place of the list.
pub(crate) fn claim(place: u32) -> Claim {
    match place {
        0 => still_open(20091012, 20100110),
        // One closed by each code. The third is cut by a part that ends the day before.
        1 => closed(20090313, 20090611, 20120429, 1),
        2 => with_maximum(20071220, 20080628, 20130214, 20400101, 2),
        3 => closed(20101112, 20110210, 20110216, 3),
        4 => closed(20071012, 20080110, 20120520, 4),
        5 => closed(20101102, 20110131, 20140329, 5),
        // 45 days before the maximum date, 46 before, 45 after, 46 after. BCD on January 29, 30, 31.
        6 => with_maximum(20101031, 20110129, 20150220, 20150406, 1),
        7 => with_maximum(20111101, 20120130, 20160220, 20160406, 1),
        8 => with_maximum(20111217, 20120131, 20160229, 20160115, 2),
        9 => with_maximum(20140116, 20140131, 20141230, 20141114, 3),
        // Durations past 480: by a long elimination period, and by many months.
        10 => still_open(19500101, 19891231),
        11 => still_open(19500101, 19500330),
        // No months from 2009 to 2017; closed only after them.
        12 => still_open(20171201, 20180301),
        13 => closed(20030101, 20030405, 20041231, 2),
        14 => closed(20151130, 20160229, 20180115, 1),
        // Refused 2, 3, 4, 5, 7, 8 and 3.
        15 => still_open(20010229, 20100110),
        16 => with_status(20091012, 20100110, 20110110, 2, 1),
        17 => still_open(20100111, 20100110),
        18 => still_open(20091227, 20100110),
        19 => with_cell(20091012, 20100110, 2),
        20 => with_cell(20091012, 20100110, 1),
        21 => with_status(20091012, 20100110, 20110110, 0, 0),
        // The second claim once more.
        22 => closed(20090313, 20090611, 20120429, 1),
        // Not of the list: the same closed at the change of definition, and a cell whose low byte is cell 0's.
        23 => closed(20090313, 20090611, 20120429, 6),
        _ => with_cell(20091012, 20100110, 256),
    }
}
