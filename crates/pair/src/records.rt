// Where the two value records of a pair are.
ghost use Rattle.std.specs.Prelude.{◌<◌};
ghost use Rattle.pair.specs.code.Bounds.{place_end};

// They start at byte `at` of a table, the subtable or a pair set, one after the other.
#[derive(Clone, Copy)]
pub struct Records<'a> {
    pub table: &'a [u8],
    pub at: usize,
    pub ghost near: { at < place_end },
}
