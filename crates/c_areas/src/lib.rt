// The replies of the polygon calls as structs of numbers, for C: each case is given as a struct, and each struct means
// a case (specs/). include/feltloquat.h says the same for C.
#![tactic(auto)]

ghost use Rattle.std.specs.Prelude.{◌≡◌};
ghost use Rattle.c_areas.specs.Areas.{outer_struct, corners_struct};

use polygons::VertexCounts;
use rounds::Refusal;

// The answer of feltloquat_outer_polygon.
#[repr(C)]
#[derive(Clone, Copy, Default)]
pub struct OuterAnswer {
    pub refused: u32,
    pub place: usize,
    pub vertices: usize,
}

// The answer of feltloquat_corner_polygons.
#[repr(C)]
#[derive(Clone, Copy, Default)]
pub struct CornersAnswer {
    pub refused: u32,
    pub place: usize,
    pub southwest: usize,
    pub southeast: usize,
    pub northeast: usize,
    pub northwest: usize,
}

// The structs are C's, each with fields of its own, so each is made by a `From` of its own.
impl From<Result<usize, Refusal>> for OuterAnswer {
    ghost from_gives = { λ reply answer. answer ≡ outer_struct reply };

    fn from(reply: Result<usize, Refusal>) -> OuterAnswer {
        match reply {
            Ok(vertices) => OuterAnswer {
                refused: 0,
                place: 0,
                vertices,
            },
            Err(refusal) => OuterAnswer {
                refused: u32::from(refusal.cause),
                place: refusal.place,
                vertices: 0,
            },
        }
    }
}

impl From<Result<VertexCounts, Refusal>> for CornersAnswer {
    ghost from_gives = { λ reply answer. answer ≡ corners_struct reply };

    fn from(reply: Result<VertexCounts, Refusal>) -> CornersAnswer {
        match reply {
            Ok(counts) => CornersAnswer {
                refused: 0,
                place: 0,
                southwest: counts.southwest,
                southeast: counts.southeast,
                northeast: counts.northeast,
                northwest: counts.northwest,
            },
            Err(refusal) => CornersAnswer {
                refused: u32::from(refusal.cause),
                place: refusal.place,
                ..CornersAnswer::default()
            },
        }
    }
}
