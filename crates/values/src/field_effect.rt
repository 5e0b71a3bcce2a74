// What a field does, by the direction: a table with an entry for each of the eight fields in each of the four.
ghost use Rattle.std.specs.Prelude.{◌≡◌, ◌<◌};
ghost use Rattle.values.specs.FieldEffect.{applies, effect_of};
ghost use Rattle.values.specs.code.Codes.{effect_by};

use slots::axis::{Axis, Direction};
use slots::fields::Measure;

// What a field does: it is skipped, or its value is added to or subtracted from one of the slot's measures.
#[derive(Clone, Copy)]
pub enum Effect {
    Skip,
    Add(Measure, Axis),
    Subtract(Measure, Axis),
}

impl Effect {
    pub fn applies(self) -> bool
        ensures { result ≡ applies (effect_by self) }
    {
        match self {
            Effect::Skip => false,
            Effect::Add(_, _) => true,
            Effect::Subtract(_, _) => true,
        }
    }
}

pub const SKIPPED: Effect = Effect::Skip;

pub const ADD_X_OFFSET: Effect = Effect::Add(Measure::Offset, Axis::X);

pub const ADD_Y_OFFSET: Effect = Effect::Add(Measure::Offset, Axis::Y);

pub const ADD_X_ADVANCE: Effect = Effect::Add(Measure::Advance, Axis::X);

pub const SUB_Y_ADVANCE: Effect = Effect::Subtract(Measure::Advance, Axis::Y);

// A row for each direction, in the order of `Direction`. In a row the fields are in the order of their bits: the
// placements, the advances, four device offsets.
static EFFECTS: [[Effect; 8]; 4] = [
    [
        ADD_X_OFFSET, // left to right: x placement
        ADD_Y_OFFSET, // left to right: y placement
        ADD_X_ADVANCE, // left to right: x advance
        SKIPPED, // left to right: y advance
        SKIPPED, // left to right: devices
        SKIPPED,
        SKIPPED,
        SKIPPED,
    ],
    [
        ADD_X_OFFSET, // right to left: x placement
        ADD_Y_OFFSET, // right to left: y placement
        ADD_X_ADVANCE, // right to left: x advance
        SKIPPED, // right to left: y advance
        SKIPPED, // right to left: devices
        SKIPPED,
        SKIPPED,
        SKIPPED,
    ],
    [
        ADD_X_OFFSET, // top to bottom: x placement
        ADD_Y_OFFSET, // top to bottom: y placement
        SKIPPED, // top to bottom: x advance
        SUB_Y_ADVANCE, // top to bottom: y advance
        SKIPPED, // top to bottom: devices
        SKIPPED,
        SKIPPED,
        SKIPPED,
    ],
    [
        ADD_X_OFFSET, // bottom to top: x placement
        ADD_Y_OFFSET, // bottom to top: y placement
        SKIPPED, // bottom to top: x advance
        SUB_Y_ADVANCE, // bottom to top: y advance
        SKIPPED, // bottom to top: devices
        SKIPPED,
        SKIPPED,
        SKIPPED,
    ],
];

// The table's entry for a field.
pub fn effect_of(d: Direction, field: usize) -> Effect
    requires { field < 8 }
    ensures { effect_by result ≡ effect_of d field }
{
    EFFECTS[d as usize][field]
}
