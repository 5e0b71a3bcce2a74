// The layout of a slot's bytes: where each field starts, and how many bytes a slot has.
pub const GLYPH: usize = 0;

pub const LIGATURE_ID: usize = 2;

pub const COMPONENT: usize = 3;

pub const FLAGS: usize = 4;

pub const ATTACH_TYPE: usize = 5;

pub const CHAIN: usize = 6;

// Its second byte.
pub const CHAIN_LOW: usize = CHAIN + 1;

pub const X_ADVANCE: usize = 8;

pub const Y_ADVANCE: usize = 12;

pub const X_OFFSET: usize = 16;

pub const Y_OFFSET: usize = 20;

pub const CLUSTER: usize = 24;

// A slot without a cluster, and one with it.
pub const SLOT_SIZE: usize = 24;

pub const CLUSTERED_SIZE: usize = 28;

// The attach types: how a slot hangs on its parent. Bytes and no enum, since a line of the caller's may have any other,
// which is kept.
pub const MARK_TYPE: u8 = 1;

pub const CURSIVE_TYPE: u8 = 2;

// A chain has 16 bits: it reaches so many slots back, and one fewer ahead.
pub const CHAIN_LIMIT: usize = 32768;
