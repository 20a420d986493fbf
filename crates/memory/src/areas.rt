// The map: a constant table of areas, walked to find the place of an address.
ghost use Rattle.std.specs.Prelude.{◌≡◌, ◌^◌, ◌<◌, ◌≤◌, is_some, IfSome};
ghost use Rattle.memory.specs.Areas.{holds, size, erase_last, place_in, some_holds, place, first_outside, range_checked, map_size, Inverse, VectorPlace, RangeExamples};

use fault::Fault;

// Addresses from a first to a last.
#[derive(Clone, Copy)]
pub struct Range {
    pub first: u32,
    pub last: u32,
}

#[derive(Clone, Copy)]
pub struct Area {
    pub first: u32,
    pub last: u32,
    // What a mass erase blanks of it, if anything.
    pub erase: Option<Range>,
}

impl Range {
    // The last address of it that an erase blanks byte by byte; the vector is left out.
    pub(crate) fn erase_last(&self) -> u32
        ensures { result ≡ erase_last self.now }
    {
        if (self.first..=self.last).contains(&VECTOR_LOW) {
            VECTOR_LOW - 1
        } else {
            self.last
        }
    }
}

impl Area {
    // Two comparisons: with a range's `contains`, tried, a mass erase takes twice the time and more, since the compiler keeps the walk for each
    // address that it erases.
    pub(crate) fn holds(&self, address: u32) -> bool
        ensures { result ≡ holds self.now address }
    {
        self.first <= address && address <= self.last
    }

    pub(crate) fn size(&self) -> usize
        ensures value { result ≡ size self.now }
        ensures bound { result ≤ 2 ^ 32 }
    {
        (self.last as usize + 1).saturating_sub(self.first as usize)
    }
}

pub(crate) const INFO: Area = Area {
    first: 0x1800,
    last: 0x19FF,
    erase: None,
};

pub(crate) const LOWER: Area = Area {
    first: 0x4400,
    last: 0xEFFF,
    erase: Some(Range {
        first: 0x4400,
        last: 0xEFFF,
    }),
};

// The vectors, the reset vector among them.
pub(crate) const TABLE: Area = Area {
    first: 0xFF80,
    last: 0xFFFF,
    erase: Some(Range {
        first: 0xFFC0,
        last: 0xFFFF,
    }),
};

pub(crate) const UPPER: Area = Area {
    first: 0x10000,
    last: 0x13FFF,
    erase: Some(Range {
        first: 0x10000,
        last: 0x13FFF,
    }),
};

pub const AREAS: [Area; 4] = [INFO, LOWER, TABLE, UPPER];

// How many bytes the map has.
pub const MAP_SIZE: usize = 61056;

// The application's reset vector, low byte and high byte.
pub const VECTOR_LOW: u32 = 0xFFFE;

pub const VECTOR_HIGH: u32 = 0xFFFF;

// The place of an address in the image of some areas, in their order.
pub(crate) fn place_in(areas: &[Area; 4], address: u32) -> Option<usize>
    ensures value { result ≡ place_in areas.now 0 address }
    ensures known { is_some result ≡ some_holds areas.now address }
{
    // Summed along the walk: a search for the area, and then a sum of the sizes before it, would walk twice.
    let mut base: usize = 0;
    for area in areas {
        if area.holds(address) {
            return Some(base + (address - area.first) as usize);
        }
        base += area.size();
    }
    None
}

// The place of an address in the image of the map.
pub(crate) fn place_of(address: u32) -> Option<usize>
    ensures value { result ≡ place address }
    ensures within { IfSome result (λ p. p < map_size) }
    ensures inverse { Inverse }
    ensures vector { VectorPlace }
{
    place_in(&AREAS, address)
}

// The first of `count` addresses upward that is outside the map. Counted by hand: `find` over a range, tried, takes two to four times as long.
fn first_outside(address: u32, count: usize) -> Option<u32>
    ensures { result ≡ first_outside address count }
{
    let mut at = address;
    for _ in 0..count {
        if place_of(at).is_none() {
            return Some(at);
        }
        at += 1;
    }
    None
}

// Refuses `count` addresses upward at the first that is outside the map.
#[tactic(auto, using(crate::proofs::Places::range_examples))]
pub fn check_range(address: u32, count: usize) -> Result<(), Fault>
    ensures value { result ≡ range_checked address count }
    ensures examples { RangeExamples }
{
    match first_outside(address, count) {
        Some(at) => Err(Fault::OutsideArea(at)),
        None => Ok(()),
    }
}
