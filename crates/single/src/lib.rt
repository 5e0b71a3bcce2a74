// Single adjustment (`SinglePos1`, `SinglePos2`): a value record for each covered glyph, or one for all.
#![tactic(auto)]

pub mod single_pos; // the SinglePos table: its check, and which record a glyph has
pub mod adjustment; // adjusting a slot by its record
