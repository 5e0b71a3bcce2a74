// The ValueFormat, and a record's bytes. Bits are counted in a byte, which takes half the instructions of 32 bits.
ghost use Rattle.std.specs.Prelude.{◌≡◌, ◌+◌, ◌*◌, ◌/◌, ◌^◌, ◌≤◌, ◌<◌};
ghost use Rattle.std.specs.Int.Count.{count_trailing_zeros};
ghost use Rattle.ints.specs.Limits.{whole32};
ghost use Rattle.values.specs.Format.{bit_of, field_place, record_at, record_length};
ghost use Rattle.values.specs.code.Format.{WholeOrEmpty};

// Two bytes for each set bit of the format.
pub fn record_len(format: u32) -> usize
    requires { format < 256 }
    ensures { (result ≡ record_length format) × (result ≤ 16) }
{
    2 * (u8::count_ones(format as u8) as usize)
}

// The place of a field in a record: two bytes for each set bit below its own.
pub fn field_place(format: u32, field: u32) -> usize
    requires { field < 8 }
    ensures { result ≡ field_place format field }
{
    2 * (u8::count_ones((format & ((1 << field) - 1)) as u8) as usize)
}

// The next field of a record, from a field on.
pub fn next_field(format: u32, field: u32) -> u32
    requires { (format < 256) × (field ≤ 8) × (0 < format / 2 ^ field) }
    ensures { (result ≡ field + count_trailing_zeros 32 (format / 2 ^ field))
        × (bit_of format result ≡ 1) × (result < 8) }
{
    field + u32::trailing_zeros(format >> field)
}

// The bytes of the record of a format at a place of a table, as a part of it: empty where it is not wholly inside.
pub fn record_at<'a>(t: &'a [u8], at: usize, format: u32) -> &'a [u8]
    requires { (format < 256) × (at < whole32) }
    ensures { (result.now ≡ record_at t.now at format) × WholeOrEmpty result.now format }
{
    let end = at + record_len(format);
    t.get(at..end).unwrap_or(&[])
}
