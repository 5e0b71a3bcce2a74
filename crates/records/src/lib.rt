// The records of a list that the caller lends: hazards as numbers, for the library and for C alike.
#![tactic(auto)]

ghost use Rattle.std.specs.Prelude.{◌≡◌, ◌<◌, ◌≤◌, ◌+◌, length, set};
ghost use Rattle.answers.specs.Said.{range, ranges};
ghost use Rattle.records.specs.Records.{record_of, records_of, records, set_all};

use answers::{Hazard, Hazards, UpToTwo};

// A record of the lent list, for library and C alike: 24 bytes on 64-bit, kind at 0, start at 8, end at 16.
// specs/Records.antt has the number of each kind.
#[repr(C)]
#[derive(Clone, Copy, PartialEq, Eq)]
pub struct HazardRecord {
    pub kind: u32,
    pub start: usize,
    pub end: usize,
}

// The records of one single call, in order.
pub type Records = UpToTwo<HazardRecord>;

// A hazard as a record.
impl From<Hazard> for HazardRecord {
    ghost from_gives = { λ h r. r ≡ record_of (range h) };

    fn from(h: Hazard) -> HazardRecord {
        HazardRecord {
            kind: h.kind as u32,
            start: h.start,
            end: h.end,
        }
    }
}

// The hazards of one single call as records, in order.
pub fn records_of(hs: Hazards) -> Records
    ensures { result ≡ records_of (ranges hs) }
{
    match hs {
        Hazards::None => Records::None,
        Hazards::One(a) => Records::One(a.into()),
        Hazards::Two(a, b) => Records::Two(a.into(), b.into()),
    }
}

// Stores a record at a place of the list, and says where the next one goes.
// An iterator over the list would hide the place, which is the count of records that a run answers.
pub fn push(list: &mut [HazardRecord], at: usize, record: HazardRecord) -> usize
    requires { at < length list.old }
    ensures { (result ≡ at + 1) × (list.new ≡ set list.old at «record») }
{
    list[at] = record;
    at + 1
}

// Stores the records of one single call from a place of the list on, in order, and says where the next one goes.
#[tactic(auto, unfolding(crate::specs::Records::set_all))]
pub fn put(list: &mut [HazardRecord], at: usize, rs: Records) -> usize
    requires { at + length (records rs) ≤ length list.old }
    ensures { (result ≡ at + length (records rs)) × (list.new ≡ set_all list.old at (records rs)) }
{
    match rs {
        Records::None => at,
        Records::One(a) => push(list, at, a),
        Records::Two(a, b) => {
            let next = push(list, at, a);
            push(list, next, b)
        }
    }
}
