// Exposures gathered in each summing form.
ghost use Rattle.std.specs.Prelude.{◌≡◌};
ghost use Rattle.book.specs.Limits.{ReadsWithin};

use book::kinds::Sizes;
use book::rules::{Rule, Term};
use forms::centre::CentreRadius;
use forms::two_ends::TwoEnds;
use forms::{FormFault, SummingForm};
use gathering::Sheet;

const SIZES: Sizes = Sizes {
    properties: 1,
    rows: 2,
    columns: 2,
};

// Twice the row before, less the row itself; what stands past these two terms is not read.
fn rule() -> Rule
    ensures { ReadsWithin 1 result }
{
    let back = Term {
        property: 0,
        shift: 1,
        reach: 0,
        coefficient: 2,
    };
    let own = Term {
        property: 0,
        shift: 0,
        reach: 2,
        coefficient: -1,
    };
    Rule::of_first(2, &[back, own, own, own, own, own])
}

// The cells of one property, row by row.
fn sheet<F>(cells: &[F; 4]) -> Sheet<'_, F>
    ensures { result.sizes ≡ SIZES }
{
    Sheet {
        sizes: SIZES,
        amounts: cells,
    }
}

// The ends of the exposure of row 1 from column 0.
fn exposed<F: SummingForm>(cells: &[F; 4]) -> Result<(i64, i64), FormFault> {
    Ok(sheet(cells).exposure(&rule(), 1, 0)?.pair())
}

// Row 0 holds 30 and 40, row 1 holds 50: from column 0 row 1 is exposed to 2 × 30 − 50.
#[test]
fn whole_numbers(rt: HostRuntime) {
    let cells: [i64; 4] = [30, 40, 50, 0];
    assert!(rt; exposed(&cells) == Ok((10, 10)));
}

// The same of intervals: the negative coefficient exchanges the ends.
#[test]
fn two_ends(rt: HostRuntime) {
    let zero = TwoEnds { low: 0, high: 0 };
    let cells = [
        TwoEnds { low: 30, high: 32 },
        zero,
        TwoEnds { low: 50, high: 55 },
        zero,
    ];
    assert!(rt; exposed(&cells) == Ok((5, 14)));
}

// A multiple past the ceiling is refused, although the sum would be within it.
#[test]
fn past_the_ceiling(rt: HostRuntime) {
    let cells: [i64; 4] = [20_000_000_001, 0, 20_000_000_001, 0];
    assert!(rt; exposed(&cells) == Err(FormFault::AmountCeiling));
}

// The same of centres and radii: the radii are added, twice the first and once the second.
#[test]
fn centre_and_radius(rt: HostRuntime) {
    let zero = CentreRadius {
        centre: 0,
        radius: 0,
    };
    let cells = [
        CentreRadius {
            centre: 31,
            radius: 1,
        },
        zero,
        CentreRadius {
            centre: 52,
            radius: 3,
        },
        zero,
    ];
    assert!(rt; exposed(&cells) == Ok((5, 15)));
}
