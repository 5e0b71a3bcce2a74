// The head of a recorded call: its numbers and its answer's, 24 of four bytes each. specs/Recorded.antt says where each
// stands.
ghost use Rattle.std.specs.Prelude.{◌≡◌, ◌+◌, ◌<◌, ◌≤◌, length};
ghost use Rattle.ints.specs.BigEndian.{nat_at};
ghost use Rattle.recorded.specs.Kind.{IsNamedBy};
ghost use Rattle.recorded.specs.Recorded.{afterwards, call_of, has_target, number_at, numbers_of, recorded_answer};
ghost use Rattle.recorded.specs.Recorded.{recorded_hazard};

use crate::kind::{Kind, UnknownKind};
use gpos_c::CAnswer;
use records::HazardRecord;

// What a call is made with; of the line and the subtable, how many bytes they have. A move has a target in place of the
// subtable.
#[derive(Clone, Copy)]
pub struct Numbers {
    pub kind: Kind,
    pub direction: u32,
    pub s: u32,
    pub u: u32,
    pub limit: u32,
    pub attachments: u32,
    pub missing: u32,
    pub flag: u32,
    pub size: usize,
    pub index: usize,
    pub neighbour: usize,
    pub line: usize,
    pub subtable: usize,
}

// What a call is made with, and what it answered.
#[derive(Clone, Copy)]
pub struct Call {
    pub numbers: Numbers,
    pub answer: CAnswer,
}

// The unsigned number in the four bytes at `at`: its bits are those of the signed one.
#[tactic(auto, using(crate::proofs::RecordedLaws::pattern_at))]
pub fn unsigned(s: &[u8], at: usize) -> u32
    requires { at + 4 ≤ length s.now }
    ensures { result ≡ nat_at 4 s.now at }
{
    ints::big_endian::read_i32(s, at)
}

// Number k of the head.
fn number(head: &[u8; 96], k: usize) -> u32
    requires { k < 24 }
    ensures { result ≡ number_at head.now k }
{
    unsigned(head, k * 4)
}

fn place(head: &[u8; 96], k: usize) -> usize
    requires { k < 24 }
    ensures { result ≡ number_at head.now k }
{
    number(head, k) as usize
}

// What a call of a kind is made with.
fn numbers_of(kind: Kind, head: &[u8; 96]) -> Numbers
    ensures { result ≡ numbers_of kind head.now }
{
    Numbers {
        kind: kind,
        direction: number(head, 1),
        s: number(head, 2),
        u: number(head, 3),
        limit: number(head, 4),
        attachments: number(head, 5),
        missing: number(head, 6),
        flag: number(head, 7),
        size: place(head, 8),
        index: place(head, 9),
        neighbour: place(head, 10),
        line: place(head, 11),
        subtable: place(head, 12),
    }
}

// The hazard in the three numbers from number k on.
fn hazard_at(head: &[u8; 96], k: usize) -> HazardRecord
    requires { k < 22 }
    ensures { result ≡ recorded_hazard head.now k }
{
    HazardRecord {
        kind: number(head, k),
        start: place(head, k + 1),
        end: place(head, k + 2),
    }
}

fn answer_of(head: &[u8; 96]) -> CAnswer
    ensures { result ≡ recorded_answer head.now }
{
    CAnswer {
        status: number(head, 13),
        refusal: number(head, 14),
        attached: number(head, 15),
        count: number(head, 16),
        next: place(head, 17),
        hazard: [hazard_at(head, 18), hazard_at(head, 21)],
    }
}

// Which call it is, where number 0 is a kind's.
pub fn kind_of(head: &[u8; 96]) -> Result<Kind, UnknownKind>
    ensures { IsNamedBy (number_at head.now 0) result }
{
    number(head, 0).try_into()
}

// The call, of that kind.
pub fn call_of(kind: Kind, head: &[u8; 96]) -> Call
    ensures { result ≡ call_of kind head.now }
{
    Call {
        numbers: numbers_of(kind, head),
        answer: answer_of(head),
    }
}

// Is a move recorded?
pub fn has_target(n: Numbers) -> bool
    ensures { result ≡ has_target n }
{
    matches!(n.kind, Kind::ToClusters | Kind::FromClusters)
}

// How many bytes are recorded afterwards: as many as the target has, else as the line.
pub fn after_length(n: Numbers) -> usize
    ensures { result ≡ afterwards n n.line n.subtable }
{
    if has_target(n) {
        return n.subtable;
    }
    n.line
}
