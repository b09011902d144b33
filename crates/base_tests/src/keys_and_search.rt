//! Keys at their limits, and searches on short rows.

use order::blend::BlendNumber;
use order::day::Day;
use order::keys::{KeyOrder, Placing};
use order::mark::{LotMark, MarkPart, TooLong};
use order::rows::rises;
use order::search::{SearchResult, search_linear, search_node};
use order::stamp::BatchStamp;
use std::cmp::Ordering;
use std::test::Fail;

fn mark(bytes: &[u8]) -> LotMark {
    LotMark::try_from(bytes).unwrap_or(LotMark::empty())
}

#[test]
fn a_mark_takes_up_to_twelve_bytes(rt: HostRuntime) {
    let twelve: &[u8] = b"ABCDEFGHIJKL";
    let mut mark = LotMark::empty();
    assert_eq!(rt; mark.bytes().len(), 0);
    assert_eq!(rt; mark.set(twelve), true);
    assert_eq!(rt; mark.bytes(), twelve);
    assert_eq!(rt; mark.set(b"ABCDEFGHIJKLM"), false);
    assert_eq!(rt; mark.bytes(), twelve);
    assert_eq!(rt; mark.set(b"A"), true);
    assert_eq!(rt; mark.cells, [65, 0, 0, 0, 0, 0, 0, 0, 0, 0, 0, 0]);
    assert_eq!(rt; mark.set(b""), true);
    assert_eq!(rt; mark.len, 0);
    assert_eq!(rt; mark.cells, [0; 12]);
}

#[test]
fn more_bytes_make_no_mark(rt: HostRuntime) -> Result<(), Fail> {
    let alloc = rt.alloc();
    let thirteen: &[u8] = b"ABCDEFGHIJKLM";
    let error = TooLong { len: 13 };
    assert_eq!(rt; LotMark::try_from(thirteen).err(), Some(error));
    assert_eq!(rt;
        format!(in alloc; "{error}")?.as_str(),
        "13 bytes, and a mark holds at most 12"
    );
    Ok(())
}

#[test]
fn a_mark_counts_up_to_its_length(rt: HostRuntime) {
    let stale = LotMark {
        len: 2,
        cells: [65, 66, 9, 9, 9, 9, 9, 9, 9, 9, 9, 9],
    };
    let long = LotMark {
        len: 200,
        cells: [65, 66, 9, 9, 9, 9, 9, 9, 9, 9, 9, 9],
    };
    let twelve = LotMark { len: 12, ..long };
    assert_eq!(rt; stale.cells(), [65, 66, 0, 0, 0, 0, 0, 0, 0, 0, 0, 0]);
    assert_eq!(rt; stale.compare(&mark(b"AB")), Ordering::Equal);
    assert_eq!(rt; long.bytes().len(), 12);
    assert_eq!(rt; long.compare(&twelve), Ordering::Equal);
    assert_eq!(rt; stale.compare(&long), Ordering::Less);
}

#[test]
fn marks_go_byte_by_byte(rt: HostRuntime) {
    assert_eq!(rt; mark(b"").compare(&mark(b"\0")), Ordering::Less);
    assert_eq!(rt; mark(b"AB").compare(&mark(b"AB\0")), Ordering::Less);
    assert_eq!(rt; mark(b"B").compare(&mark(b"AZ")), Ordering::Greater);
    assert_eq!(rt; mark(b"\x80").compare(&mark(b"\x7f")), Ordering::Greater);
}

#[test]
fn a_part_may_be_longer_than_a_mark(rt: HostRuntime) {
    let text: &[u8] = b"lot ABCDEFGHIJKLM";
    let keys = [mark(b"ABCDEFGHIJKL"), mark(b"ABCDEFGHIJL")];
    let thirteen = MarkPart::from(&text[4..17]);
    assert_eq!(rt; thirteen.place(&keys[0]), Ordering::Greater);
    assert_eq!(rt; search_linear(&keys, &thirteen), (1, false));
    assert_eq!(rt;
        search_linear(&keys, &MarkPart::from(&text[4..16])),
        (0, true)
    );
    assert_eq!(rt;
        search_linear(&keys, &MarkPart::from(&text[0..0])),
        (0, false)
    );
}

#[test]
fn stamps_go_by_day_and_then_number(rt: HostRuntime) {
    let pairs = [
        ((0, u16::MAX), (1, 0), Ordering::Less),
        ((u32::MAX, 0), (u32::MAX - 1, u16::MAX), Ordering::Greater),
        ((7, 1), (7, 2), Ordering::Less),
        ((u32::MAX, u16::MAX), (u32::MAX, u16::MAX), Ordering::Equal),
    ];
    for (a, b, order) in pairs {
        assert_eq!(rt; BatchStamp::from(a).compare(&BatchStamp::from(b)), order);
    }
}

#[test]
fn a_search_counts_its_comparisons(rt: HostRuntime) {
    let keys = [10, 20, 30].map(BlendNumber::from);
    assert_eq!(rt;
        search_node(&keys[0..0], &BlendNumber::from(1)),
        (SearchResult::GoDown(0), 0)
    );
    let answers = [
        (5, SearchResult::GoDown(0), 1),
        (10, SearchResult::Found(0), 1),
        (15, SearchResult::GoDown(1), 2),
        (20, SearchResult::Found(1), 2),
        (25, SearchResult::GoDown(2), 3),
        (30, SearchResult::Found(2), 3),
        (35, SearchResult::GoDown(3), 3),
    ];
    for (query, result, comparisons) in answers {
        assert_eq!(rt;
            search_node(&keys, &BlendNumber::from(query)),
            (result, comparisons)
        );
    }
}

#[test]
fn a_row_out_of_order_stops_at_the_first_not_below(rt: HostRuntime) {
    let keys = [20, 10, 30, 10].map(BlendNumber::from);
    assert_eq!(rt; rises(&keys), false);
    assert_eq!(rt; rises(&keys[1..3]), true);
    assert_eq!(rt; search_linear(&keys, &BlendNumber::from(10)), (0, false));
    assert_eq!(rt; search_linear(&keys, &BlendNumber::from(25)), (2, false));
    assert_eq!(rt;
        search_linear(&keys[1..4], &BlendNumber::from(30)),
        (1, true)
    );
}

#[test]
fn a_day_is_the_same_as_each_stamp_of_it(rt: HostRuntime) {
    let places = [
        (0, (0, 0), Ordering::Equal),
        (0, (0, u16::MAX), Ordering::Equal),
        (0, (1, 0), Ordering::Less),
        (7, (6, u16::MAX), Ordering::Greater),
        (7, (7, 0), Ordering::Equal),
        (7, (7, u16::MAX), Ordering::Equal),
        (7, (8, 0), Ordering::Less),
        (u32::MAX, (u32::MAX, 0), Ordering::Equal),
        (u32::MAX, (u32::MAX, u16::MAX), Ordering::Equal),
        (u32::MAX, (u32::MAX - 1, u16::MAX), Ordering::Greater),
    ];
    for (day, stamp, placed) in places {
        assert_eq!(rt;
            Day::from(day).place(&BatchStamp::from(stamp)),
            placed,
            "day {day} at {stamp:?}"
        );
    }
}

#[test]
fn a_day_is_found_at_its_first_stamp(rt: HostRuntime) {
    let keys = [(3, 0), (4, 0), (4, 1), (4, 7), (5, 0)].map(BatchStamp::from);
    let answers = [
        (2, 0, false, 1),
        (3, 0, true, 1),
        (4, 1, true, 2),
        (5, 4, true, 5),
        (6, 5, false, 5),
    ];
    for (day, index, found, made) in answers {
        let day = Day::from(day);
        let result = if found {
            SearchResult::Found(index)
        } else {
            SearchResult::GoDown(index)
        };
        assert_eq!(rt; search_linear(&keys, &day), (index, found), "at {day}");
        assert_eq!(rt; search_node(&keys, &day), (result, made), "at {day}");
    }
    let limits = [(0, 0), (0, u16::MAX), (u32::MAX, 0), (u32::MAX, u16::MAX)].map(BatchStamp::from);
    assert_eq!(rt; search_linear(&limits, &Day::from(0)), (0, true));
    assert_eq!(rt; search_linear(&limits, &Day::from(1)), (2, false));
    assert_eq!(rt; search_linear(&limits, &Day::from(u32::MAX)), (2, true));
    assert_eq!(rt;
        search_linear(&limits[0..2], &Day::from(u32::MAX)),
        (2, false)
    );
}
