// Why a call is declined: a ground, where it arose, the place, and the credibility layers above.
ghost use Rattle.std.specs.Prelude.{◌≡◌, Result};
ghost use Rattle.book.specs.Grounds.{number, origin_number, form_ground, fault_at, placed, under_layer, from_below};
ghost use Rattle.book.specs.declared.faults.Place.{Place};
ghost use Rattle.book.specs.declared.faults.Fault.{Fault};

use forms::FormFault;

#[derive(Clone, Copy, PartialEq, Eq, Hash, Debug)]
pub enum Ground {
    SizesOutside = 1,
    NoProperty = 2,
    NoRow = 3,
    NoColumn = 4,
    NotObserved = 5,
    EntryLimit = 6,
    ShiftOutside = 7,
    NoReach = 8,
    CoefficientOutside = 9,
    RuleFull = 10,
    FactorOutside = 11,
    WeighingOutside = 12,
    NegativeExposure = 13,
    AmountCeiling = 14,
    FactorCeiling = 15,
}

#[derive(Clone, Copy, PartialEq, Eq, Hash, Debug)]
pub enum Origin {
    OfBook = 0,
    OfForm = 1,
    OfSource = 2,
}

// A number that does not apply is 0, as a place is printed.
#[derive(Clone, Copy, PartialEq, Eq, PartialOrd, Ord, Hash, Default, Debug)]
pub struct Place {
    pub property: usize,
    pub row: usize,
    pub column: usize,
}

#[derive(Clone, Copy, PartialEq, Eq, Hash, Debug)]
pub struct Fault {
    pub ground: Ground,
    pub origin: Origin,
    pub place: Place,
    pub layers: u8,
}

impl Ground {
    pub fn number(&self) -> u8
        ensures { result ≡ number self.now }
    {
        *self as u8
    }
}

impl Origin {
    pub fn number(&self) -> u8
        ensures { result ≡ origin_number self.now }
    {
        *self as u8
    }
}

impl From<FormFault> for Ground {
    ghost from_gives = { λ fault ground. ground ≡ form_ground fault };

    fn from(fault: FormFault) -> Self {
        match fault {
            FormFault::AmountCeiling => Ground::AmountCeiling,
            FormFault::FactorCeiling => Ground::FactorCeiling,
        }
    }
}

impl Fault {
    // A fault with no credibility layers above it.
    pub fn new(ground: Ground, origin: Origin, place: Place) -> Self
        ensures { result ≡ fault_at origin place 0 ground }
    {
        Fault {
            ground,
            origin,
            place,
            layers: 0,
        }
    }

    // The fault with one credibility layer more above it; layers are counted up to 255.
    pub fn under_layer(self) -> Self
        ensures { result ≡ under_layer self }
    {
        Fault {
            layers: self.layers.saturating_add(1),
            ..self
        }
    }
}

// The form knows no place: its caller adds it.
pub trait Placing {
    type Value;

    ghost placing: { Self → Place → Result Self.Value Fault };

    fn at(self, place: Place) -> Result<Self::Value, Fault>
        ensures { result ≡ placing self place };
}

impl<V> Placing for Result<V, FormFault> {
    type Value = V;

    ghost placing = { λ r p. placed p r };

    fn at(self, place: Place) -> Result<V, Fault> {
        self.map_err(|fault| Fault::new(fault.into(), Origin::OfForm, place))
    }
}

// What comes from below a credibility layer: the layer counts in its fault.
pub trait Passing {
    ghost passing: { Self → Self };

    fn above(self) -> Self
        ensures { result ≡ passing self };
}

impl<V> Passing for Result<V, Fault> {
    ghost passing = { from_below };

    fn above(self) -> Result<V, Fault> {
        self.map_err(|fault| fault.under_layer())
    }
}
