// The numbers of definition/specs/Limits under the same names, the lengths of specs/Arrays, and the type of a text's records.
#![tactic(auto)]

pub const RECORD_LENGTH: usize = 6;

pub const MOST_RECORDS: usize = 256;

pub const MOST_SIZE: usize = 4096;

pub const MOST_FLAGS: u8 = 15;

pub const MOST_MARKED: usize = 64;

pub const MOST_IDENTIFIERS: usize = 512;

// A count that says: more than there is room for. Counts go on to it as to any other, so that no flag stands beside them.
pub const FULL: usize = MOST_IDENTIFIERS + 1;

// So many steps are enough for every run.
pub const ENOUGH_STEPS: usize = MOST_IDENTIFIERS + 1;

// The stop: so many worlds end a run.
pub const WORLD_LIMIT: usize = 25;

// So many worlds have room in the graph.
pub const GRAPH_WIDTH: usize = 25;

pub const NODE_LENGTH: usize = 12;

// So many classes of urgency: definition/specs/Queue.
pub const CLASS_COUNT: u16 = 3;

pub const MOST_FORMULAS: usize = MOST_RECORDS + 2 * MOST_IDENTIFIERS;

pub const NODE_TRAY_LENGTH: usize = NODE_LENGTH * MOST_IDENTIFIERS;

pub const FORMULA_TRAY_LENGTH: usize = RECORD_LENGTH * MOST_FORMULAS;

pub const EDGE_TRAY_LENGTH: usize = GRAPH_WIDTH;

pub const MOST_TEXT: usize = 4096;

pub const LARGEST_ATOM: u32 = 65535;

pub const TEXT_TRAY_LENGTH: usize = RECORD_LENGTH * MOST_TEXT;

pub const EDGE_CELLS: usize = GRAPH_WIDTH * GRAPH_WIDTH;

pub const ROW_WORDS: usize = MOST_IDENTIFIERS / 32;

pub const LEAF_COUNT: usize = MOST_IDENTIFIERS * MOST_IDENTIFIERS;

pub const LEAF_WORDS: usize = MOST_IDENTIFIERS * ROW_WORDS;

// A text's records as bytes.
pub type TextRecords = [u8; TEXT_TRAY_LENGTH];
