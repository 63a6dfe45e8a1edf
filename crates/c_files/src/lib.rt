// The replies of the reader and the writer as structs of numbers, for C: each case is given as a struct, and each
// struct means a case (specs/). include/feltloquat.h says the same for C.
#![tactic(auto)]

ghost use Rattle.std.specs.Prelude.{◌≡◌};
ghost use Rattle.c_files.specs.Files.{read_struct, write_struct};

use formats::Counts;
use rounds::Refusal;

// The answer of feltloquat_read_round.
#[repr(C)]
#[derive(Clone, Copy, Default)]
pub struct ReadAnswer {
    pub refused: u32,
    pub place: usize,
    pub boxes: usize,
    pub plugs: usize,
}

// The answer of feltloquat_write_round.
#[repr(C)]
#[derive(Clone, Copy, Default)]
pub struct WriteAnswer {
    pub refused: u32,
    pub place: usize,
    pub bytes: usize,
}

// The structs are C's, each with fields of its own, so each is made by a `From` of its own.
impl From<Result<Counts, Refusal>> for ReadAnswer {
    ghost from_gives = { λ reading answer. answer ≡ read_struct reading };

    fn from(reading: Result<Counts, Refusal>) -> ReadAnswer {
        match reading {
            Ok(counts) => ReadAnswer {
                refused: 0,
                place: 0,
                boxes: counts.boxes,
                plugs: counts.plugs,
            },
            Err(refusal) => ReadAnswer {
                refused: u32::from(refusal.cause),
                place: refusal.place,
                ..ReadAnswer::default()
            },
        }
    }
}

impl From<Result<usize, Refusal>> for WriteAnswer {
    ghost from_gives = { λ writing answer. answer ≡ write_struct writing };

    fn from(writing: Result<usize, Refusal>) -> WriteAnswer {
        match writing {
            Ok(bytes) => WriteAnswer {
                refused: 0,
                place: 0,
                bytes,
            },
            Err(refusal) => WriteAnswer {
                refused: u32::from(refusal.cause),
                place: refusal.place,
                bytes: 0,
            },
        }
    }
}
