// Boxes, corners, words, reasons, causes and refusals as types, with their numbers and their sizes (docs/SCOPE.md).
// What they mean is in specs/, the theorems about them in proofs/.
#![tactic(auto)]

ghost use Rattle.std.specs.Prelude.{◌≡◌};
ghost use Rattle.rounds.specs.Boxes.{corner_of};
ghost use Rattle.rounds.specs.Refusals.{number_of};
ghost use Rattle.rounds.specs.Names.{name_of};

use plane::Point;
use std::fmt;

// The most boxes that a round has.
pub const MOST_BOXES: usize = 1024;

// The most numbers that a box list has, which are four for each box; and the most corners of a round's boxes.
pub const MOST_NUMBERS: usize = 4096;

// The most bytes of the printing program's input.
pub const MOST_INPUT: usize = 65536;

// A box: four edges in whole metres.
#[repr(C)]
#[derive(Clone, Copy, Debug, PartialEq, Eq)]
pub struct Box {
    pub west: i32,
    pub south: i32,
    pub east: i32,
    pub north: i32,
}

impl Box {
    // The corner that a corner name means.
    pub fn corner(self, corner: Corner) -> Point
        ensures { result ≡ corner_of corner self }
    {
        // Two matches: with one that gives a pair, a verdict takes a fifth more instructions.
        let east = match corner {
            Corner::SouthWest => self.west,
            Corner::SouthEast => self.east,
            Corner::NorthEast => self.east,
            Corner::NorthWest => self.west,
        };
        let north = match corner {
            Corner::SouthWest => self.south,
            Corner::SouthEast => self.south,
            Corner::NorthEast => self.north,
            Corner::NorthWest => self.north,
        };
        Point { east, north }
    }
}

// A corner's name; its number is its place in this order, from 0.
#[derive(Clone, Copy, Debug, PartialEq, Eq)]
pub enum Corner {
    SouthWest,
    SouthEast,
    NorthEast,
    NorthWest,
}

impl Corner {
    // The four corner names, in the order of their numbers.
    pub const ALL: [Corner; 4] = [
        Corner::SouthWest,
        Corner::SouthEast,
        Corner::NorthEast,
        Corner::NorthWest,
    ];
}

// A verdict's word, with its number.
#[derive(Clone, Copy, Debug, PartialEq, Eq)]
pub enum Word {
    Inside = 1,
    Outside = 2,
    Undecided = 3,
}

impl Word {
    // The word's name.
    pub fn name(self) -> &'static str
        ensures { result.now ≡ name_of self }
    {
        match self {
            Word::Inside => "inside",
            Word::Outside => "outside",
            Word::Undecided => "undecided",
        }
    }
}

impl fmt::Display for Word {
    fn fmt<W: fmt::Write>(&self, f: &mut fmt::Formatter<W>) -> fmt::Result {
        f.write_str(self.name())
    }
}

// The first driver's reason: that corner of every box is the pick, and no picked point is ahead of the plug in the
// direction. Its east and north stand one by one, as C reads them.
#[derive(Clone, Copy, Debug, PartialEq, Eq)]
pub struct Direction {
    pub corner: Corner,
    pub east: i32,
    pub north: i32,
}

// An entry of the second driver's reason: a box number from 1, a corner's name and a weight.
#[derive(Clone, Copy, Debug, PartialEq, Eq)]
pub struct Entry {
    pub number: usize,
    pub corner: Corner,
    pub weight: u32,
}

// What an undecided verdict carries: a direction for the first driver, three entries for the second.
#[derive(Clone, Copy, Debug, PartialEq, Eq)]
pub struct Reasons {
    pub direction: Direction,
    pub first: Entry,
    pub second: Entry,
    pub third: Entry,
}

// A cause of the table of refusals (docs/SCOPE.md 6.2), with its number.
#[derive(Clone, Copy, Debug, PartialEq, Eq)]
pub enum Cause {
    ListLength = 1,
    NoBox = 2,
    TooManyBoxes = 3,
    EdgeBeyond = 4,
    EdgesReversed = 5,
    PlugBeyond = 6,
    BufferShort = 7,
    UnknownMark = 8,
    CutShort = 9,
    BoxAfterPlug = 10,
    ByteAfterEnd = 11,
    InputTooLong = 12,
}

impl From<Cause> for u32 {
    ghost from_gives = { λ cause number. number ≡ number_of cause };

    fn from(cause: Cause) -> u32 {
        cause as u32
    }
}

// What a refusal returns: its cause, which has a number, and a place.
#[derive(Clone, Copy, Debug, PartialEq, Eq)]
pub struct Refusal {
    pub cause: Cause,
    pub place: usize,
}

impl fmt::Display for Refusal {
    fn fmt<W: fmt::Write>(&self, f: &mut fmt::Formatter<W>) -> fmt::Result {
        let number = u32::from(self.cause);
        let place = self.place;
        write!(f, "refused {number} {place}")
    }
}
