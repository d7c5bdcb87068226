// Factors of small books, asked through whole lines of calls.
use book::faults::Place;
use book::kinds::Sizes;
use book::rules::Term;
use forms::two_ends::TwoEnds;
use lines::calls::{Call, Outcome, State};
use lines::run::run;
use sources::estimated::Estimated;
use std::alloc::{AllocError, Global};
use std::test::Fail;

pub(crate) fn sizes(rows: usize, columns: usize) -> Sizes {
    Sizes {
        properties: 1,
        rows,
        columns,
    }
}

const CHAIN_LADDER: Call = Call::AddTerm {
    property: 0,
    term: Term {
        property: 0,
        shift: 0,
        reach: 0,
        coefficient: 1,
    },
};

const FIRST_FACTOR: Call = Call::AskFactor {
    property: 0,
    column: 0,
};

// An entry is a row, a column and an amount.
pub(crate) type Entry = (usize, usize, i64);

fn enter((row, column, amount): Entry) -> Call {
    let at = Place {
        property: 0,
        row,
        column,
    };
    Call::Enter { at, amount }
}

pub(crate) fn calls(heap: Global, entries: &[Entry]) -> Result<Vec<Call>, AllocError> {
    let mut calls = Vec::new(heap);
    for &entry in entries {
        calls.push(enter(entry))?;
    }
    calls.extend_from_slice(&[CHAIN_LADDER, Call::Close, FIRST_FACTOR])?;
    Ok(calls)
}

// The ends of the first factor of a book with these entries, or the number of the ground and the row of its refusal: tests
// keep the numbers that docs/ give. There is room for more outcomes than calls.
fn factor(
    heap: Global,
    sizes: Sizes,
    entries: &[Entry],
) -> Result<Result<(i64, i64), (u8, usize)>, Fail> {
    let calls = calls(heap, entries)?;
    let mut outcomes = [Outcome::NotTaken(State::Drafted); 12];
    let count = run::<TwoEnds, Estimated>(&Estimated, sizes, &calls, &mut outcomes)?;
    match outcomes.iter().take(count).last() {
        Some(&Outcome::Between(low, high)) => Ok(Ok((low, high))),
        Some(Outcome::Refused(fault)) => Ok(Err((fault.ground.number(), fault.place.row))),
        _ => Err(Fail::new("no factor")),
    }
}

#[test]
fn three_rows(rt: HostRuntime) -> Result<(), Fail> {
    let entries = [
        (0, 0, 10000),
        (0, 1, 5000),
        (0, 2, 3000),
        (1, 0, 12000),
        (1, 1, 7200),
        (2, 0, 11000),
    ];
    let factor = factor(rt.alloc(), sizes(3, 3), &entries)?;
    assert!(rt; factor == Ok((5545454, 5545455)), "61/110");
    Ok(())
}

// A row with exposure 0 does not count, and its next amount neither.
#[test]
fn exposure_0(rt: HostRuntime) -> Result<(), Fail> {
    let entries = [(0, 1, 5), (1, 0, 100), (1, 1, 20)];
    let factor = factor(rt.alloc(), sizes(3, 2), &entries)?;
    assert!(rt; factor == Ok((2000000, 2000000)), "one fifth");
    Ok(())
}

#[test]
fn factor_ceiling(rt: HostRuntime) -> Result<(), Fail> {
    let at = factor(rt.alloc(), sizes(2, 2), &[(0, 0, 1000), (0, 1, 20000)])?;
    assert!(rt; at == Ok((200000000, 200000000)), "exactly the ceiling");
    let past = factor(rt.alloc(), sizes(2, 2), &[(0, 0, 1000), (0, 1, 20001)])?;
    assert!(rt; past == Err((15, 0)), "past the ceiling");
    Ok(())
}

#[test]
fn negative_exposure(rt: HostRuntime) -> Result<(), Fail> {
    let factor = factor(rt.alloc(), sizes(3, 2), &[(0, 0, 7), (1, 0, -1)])?;
    assert!(rt; factor == Err((13, 1)), "row 1");
    Ok(())
}
