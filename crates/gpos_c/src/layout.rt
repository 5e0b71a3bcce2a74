// Answers as numbers: what each case of an answer is for C. specs/Layout.antt gives the numbers.
ghost use Rattle.std.specs.Prelude.{◌≡◌};
ghost use Rattle.gpos_c.specs.Layout.{done_number, laid as Layout·laid, list_of, moved_number, neighbour, ran_to_c};
ghost use Rattle.gpos_c.specs.Layout.{set, to_c};

use answers::{Answer, Hazards, Neighbour, Ran, Refusal, WiderRefusal};
use records::HazardRecord;

#[repr(C)]
#[derive(Clone, Copy, PartialEq, Eq)]
pub struct CAnswer {
    pub status: u32,
    pub refusal: u32,
    pub attached: u32,
    pub count: u32,
    pub next: usize,
    pub hazard: [HazardRecord; 2],
}

#[repr(C)]
#[derive(Clone, Copy, PartialEq, Eq)]
pub struct CRan {
    pub refusal: u32,
    pub attached: u32,
    pub index: usize,
    pub count: usize,
}

// An answer's hazards as C sees them.
#[derive(Clone, Copy)]
struct List {
    count: u32,
    hazard: [HazardRecord; 2],
}

// A flag from C, which gives it as a number: any but 0 sets it.
pub fn is_set(n: u32) -> bool
    ensures { result ≡ set n }
{
    n != 0
}

// A neighbour from C, as a flag and a number: the slot n, or none, with the bound n.
pub fn neighbour_of(missing: u32, n: usize) -> Neighbour
    ensures { result ≡ neighbour missing n }
{
    if is_set(missing) {
        Neighbour::Missing(n)
    } else {
        Neighbour::Named(n)
    }
}

// 0 where the call is done. It and the next can't be a `From`, whose two types would both be the language's own.
pub fn done_number(done: Result<(), Refusal>) -> u32
    ensures { result ≡ done_number done }
{
    done.map_or_else(|refusal| refusal.into(), |()| 0)
}

// The same of a move, which has refusal 10 besides.
pub fn moved_number(moved: Result<(), WiderRefusal>) -> u32
    ensures { result ≡ moved_number moved }
{
    moved.map_or_else(|refusal| refusal.number(10), |()| 0)
}

// Zeros where there is no hazard.
const NO_HAZARD: HazardRecord = HazardRecord {
    kind: 0,
    start: 0,
    end: 0,
};

// The hazards, in their order, and how many there are.
fn list_of(hs: Hazards) -> List
    ensures { result ≡ list_of hs }
{
    match hs {
        Hazards::None => List {
            count: 0,
            hazard: [NO_HAZARD, NO_HAZARD],
        },
        Hazards::One(h) => List {
            count: 1,
            hazard: [h.into(), NO_HAZARD],
        },
        Hazards::Two(h, g) => List {
            count: 2,
            hazard: [h.into(), g.into()],
        },
    }
}

// An answer of these numbers and hazards.
pub fn laid(status: u32, refusal: u32, attached: u32, next: usize, hazards: Hazards) -> CAnswer
    ensures { result ≡ Layout·laid status refusal attached next hazards }
{
    let List { count, hazard } = list_of(hazards);
    CAnswer {
        status,
        refusal,
        attached,
        count,
        next,
        hazard,
    }
}

impl From<Result<Answer, Refusal>> for CAnswer {
    ghost from_gives = { λ answer a. a ≡ to_c answer };

    fn from(answer: Result<Answer, Refusal>) -> CAnswer {
        match answer {
            Ok(
                Answer::Applied {
                    next,
                    hazards,
                    attached,
                },
            ) => laid(1, 0, attached as u32, next, hazards),
            Ok(Answer::Declined { hazards }) => laid(2, 0, 0, 0, hazards),
            Err(refusal) => laid(3, refusal.into(), 0, 0, Hazards::None),
        }
    }
}

impl From<Result<Ran, WiderRefusal>> for CRan {
    ghost from_gives = { λ ran r. r ≡ ran_to_c ran };

    fn from(ran: Result<Ran, WiderRefusal>) -> CRan {
        match ran {
            Ok(Ran::Done { records, attached }) => CRan {
                refusal: 0,
                attached: attached as u32,
                index: 0,
                count: records,
            },
            Ok(Ran::Endless { index, records }) => CRan {
                refusal: 7,
                attached: 0,
                index,
                count: records,
            },
            Err(refusal) => CRan {
                refusal: refusal.number(8),
                attached: 0,
                index: 0,
                count: 0,
            },
        }
    }
}
