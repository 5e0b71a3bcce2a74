// Value records: their length and bytes, what each field does in each direction, and applying one to a slot
// (`apply_value`).
#![tactic(auto)]

pub mod format; // ValueFormat: length of a record, place of a field
pub mod field_effect; // the table: what each field does in each direction
pub mod value; // applying a record
