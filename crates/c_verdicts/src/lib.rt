// Verdicts and words as structs of numbers, for C: each case is given as a struct, and each struct means a case
// (specs/). include/feltloquat.h says the same for C.
#![tactic(auto)]

ghost use Rattle.std.specs.Prelude.{◌≡◌};
ghost use Rattle.c_verdicts.specs.Verdicts.{entry_struct, reasoned_struct, verdict_struct, word_struct};

use rounds::{Entry, Reasons, Refusal, Word};
use verdicts::Verdict;

// An entry of the second driver's reason.
#[repr(C)]
#[derive(Clone, Copy, Default)]
pub struct EntryAnswer {
    pub number: usize,
    pub corner: u32,
    pub weight: u32,
}

// The answer of feltloquat_verdict.
#[repr(C)]
#[derive(Clone, Copy, Default)]
pub struct VerdictAnswer {
    pub refused: u32,
    pub place: usize,
    pub word: u32,
    pub corner: u32,
    pub east: i32,
    pub north: i32,
    pub first: EntryAnswer,
    pub second: EntryAnswer,
    pub third: EntryAnswer,
}

// The answer of feltloquat_word.
#[repr(C)]
#[derive(Clone, Copy, Default)]
pub struct WordAnswer {
    pub refused: u32,
    pub place: usize,
    pub word: u32,
}

// The structs are C's, each with fields of its own, so each is made by a `From` of its own.
impl From<Entry> for EntryAnswer {
    ghost from_gives = { λ entry answer. answer ≡ entry_struct entry };

    fn from(entry: Entry) -> EntryAnswer {
        EntryAnswer {
            number: entry.number,
            corner: entry.corner as u32,
            weight: entry.weight,
        }
    }
}

// Undecided with its reasons as numbers.
impl From<Reasons> for VerdictAnswer {
    ghost from_gives = { λ reasons answer. answer ≡ reasoned_struct reasons };

    fn from(reasons: Reasons) -> VerdictAnswer {
        let direction = reasons.direction;
        VerdictAnswer {
            refused: 0,
            place: 0,
            word: Word::Undecided as u32,
            corner: direction.corner as u32,
            east: direction.east,
            north: direction.north,
            first: EntryAnswer::from(reasons.first),
            second: EntryAnswer::from(reasons.second),
            third: EntryAnswer::from(reasons.third),
        }
    }
}

impl From<Result<Verdict, Refusal>> for VerdictAnswer {
    ghost from_gives = { λ verdict answer. answer ≡ verdict_struct verdict };

    fn from(verdict: Result<Verdict, Refusal>) -> VerdictAnswer {
        match verdict {
            Ok(Verdict::Undecided(reasons)) => VerdictAnswer::from(reasons),
            Ok(sure) => VerdictAnswer {
                word: sure.word() as u32,
                ..VerdictAnswer::default()
            },
            Err(refusal) => VerdictAnswer {
                refused: u32::from(refusal.cause),
                place: refusal.place,
                ..VerdictAnswer::default()
            },
        }
    }
}

impl From<Result<Word, Refusal>> for WordAnswer {
    ghost from_gives = { λ reply answer. answer ≡ word_struct reply };

    fn from(reply: Result<Word, Refusal>) -> WordAnswer {
        match reply {
            Ok(word) => WordAnswer {
                refused: 0,
                place: 0,
                word: word as u32,
            },
            Err(refusal) => WordAnswer {
                refused: u32::from(refusal.cause),
                place: refusal.place,
                word: 0,
            },
        }
    }
}
