// Selected factors and credibility layers, asked through whole lines of calls.
use crate::factors::{Entry, calls, sizes};
use book::faults::{Fault, Ground, Origin, Place};
use forms::two_ends::TwoEnds;
use lines::calls::{Outcome, State};
use lines::run::run;
use sources::credibility::Credibility;
use sources::estimated::Estimated;
use sources::selected::Selected;
use sources::source::FactorSource;
use std::alloc::Global;
use std::test::Fail;

const CHAIN_LADDER: [Entry; 5] = [
    (0, 0, 10000),
    (0, 1, 5000),
    (1, 0, 12000),
    (1, 1, 7200),
    (2, 0, 11000),
];

// The ends of the first factor of a book with these entries, or its refusal.
fn factor<S: FactorSource>(
    heap: Global,
    source: &S,
    entries: &[Entry],
) -> Result<Result<(i64, i64), Fault>, Fail> {
    let calls = calls(heap, entries)?;
    let mut outcomes = [Outcome::NotTaken(State::Drafted); 12];
    let count = run::<TwoEnds, S>(source, sizes(3, 3), &calls, &mut outcomes)?;
    match outcomes.iter().take(count).last() {
        Some(&Outcome::Between(low, high)) => Ok(Ok((low, high))),
        Some(&Outcome::Refused(fault)) => Ok(Err(fault)),
        _ => Err(Fail::new("no factor")),
    }
}

// A fault of the source in the first column.
fn of_source(ground: Ground, property: usize, row: usize, layers: u8) -> Fault {
    Fault {
        ground,
        origin: Origin::OfSource,
        place: Place {
            property,
            row,
            column: 0,
        },
        layers,
    }
}

#[test]
fn selected_factor(rt: HostRuntime) -> Result<(), Fail> {
    let mut source = Selected::zero();
    let unset = factor(rt.alloc(), &source, &CHAIN_LADDER)?;
    assert!(rt; unset == Ok((0, 0)), "at first 0");
    source.set(0, 0, -12345678)?;
    let set = factor(rt.alloc(), &source, &CHAIN_LADDER)?;
    assert!(rt; set == Ok((-12345678, -12345678)), "as it was set");
    Ok(())
}

#[test]
fn selected_limits(rt: HostRuntime) -> Result<(), Fail> {
    let mut source = Selected::zero();
    source.set(3, 10, 200000000)?;
    let before = source;
    let past = source.set(0, 0, 200000001);
    assert!(rt;
        past == Err(of_source(Ground::FactorOutside, 0, 0, 0)),
        "past the ceiling"
    );
    let property = source.set(4, 0, 200000001);
    assert!(rt;
        property == Err(of_source(Ground::NoProperty, 4, 0, 0)),
        "no such property"
    );
    assert!(rt; source == before, "a refusal changes nothing");
    Ok(())
}

#[test]
fn one_layer(rt: HostRuntime) -> Result<(), Fail> {
    let mut source = Credibility::over(Estimated);
    source.set(0, 0, 500)?;
    let latest = factor(rt.alloc(), &source, &CHAIN_LADDER)?;
    assert!(rt; latest == Ok((5772727, 5772728)), "61/110 and 3/5: 127/220");
    source.set(0, 1, 500)?;
    let first = factor(rt.alloc(), &source, &CHAIN_LADDER)?;
    assert!(rt; first == Ok((5272727, 5272728)), "61/110 and 1/2: 29/55");
    source.set(0, 2, 500)?;
    let none = factor(rt.alloc(), &source, &CHAIN_LADDER)?;
    assert!(rt; none == Ok((5545454, 5545455)), "no such row: 61/110");
    Ok(())
}

// A row with exposure 0 has no factor of its own.
#[test]
fn layer_of_exposure_0(rt: HostRuntime) -> Result<(), Fail> {
    let mut source = Credibility::over(Estimated);
    source.set(0, 1, 1000)?;
    let factor = factor(rt.alloc(), &source, &[(0, 1, 5), (1, 0, 100), (1, 1, 20)])?;
    assert!(rt; factor == Ok((2000000, 2000000)), "one fifth, from below");
    Ok(())
}

// The layers above where a fault arose are counted.
#[test]
fn layers_of_a_fault(rt: HostRuntime) -> Result<(), Fail> {
    let negative = [(0, 0, 7), (1, 0, -1)];
    let estimated = Credibility::over(Credibility::over(Estimated));
    let below = factor(rt.alloc(), &estimated, &negative)?;
    assert!(rt;
        below == Err(of_source(Ground::NegativeExposure, 0, 1, 2)),
        "two above"
    );
    let selected = Credibility::over(Credibility::over(Selected::zero()));
    let own = factor(rt.alloc(), &selected, &negative)?;
    assert!(rt;
        own == Err(of_source(Ground::NegativeExposure, 0, 1, 1)),
        "of the lower layer"
    );
    Ok(())
}

#[test]
fn weighing_limits(rt: HostRuntime) -> Result<(), Fail> {
    let mut source = Credibility::over(Estimated);
    source.set(10, 15, 1000)?;
    let lag = source.set(0, 16, 0);
    assert!(rt;
        lag == Err(of_source(Ground::WeighingOutside, 0, 0, 0)),
        "past 15 rows"
    );
    let weight = source.set(0, 0, 1001);
    assert!(rt;
        weight == Err(of_source(Ground::WeighingOutside, 0, 0, 0)),
        "past the whole"
    );
    Ok(())
}
