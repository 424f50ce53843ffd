//! The example table with dearer fares.

/// The example table with another fare of the zones 1 and 2, and another peak maximum.
pub const REVISED_TABLE: &str = r#"zone = "GMT0BST,M3.5.0/1,M10.5.0"
entry_minimum = 190
balance_limit = 9000
leg_minutes = 90
evening_rule = true
maximum_peak = 1000
maximum_off_peak = 700
holidays = ["2025-12-25"]
station = [
  {id = 1, name = "Alder", zones = [1]},
  {id = 2, name = "Birch", zones = [2]},
  {id = 3, name = "Cedar", zones = [3]},
  {id = 4, name = "Damson", zones = [1]},
  {id = 5, name = "Elder", zones = [2, 3]},
]
single = [
  {low = 1, high = 1, peak = 300, off_peak = 250},
  {low = 1, high = 2, peak = 380, off_peak = 300},
  {low = 1, high = 3, peak = 400, off_peak = 310},
  {low = 2, high = 2, peak = 210, off_peak = 190},
  {low = 2, high = 3, peak = 240, off_peak = 210},
  {low = 3, high = 3, peak = 210, off_peak = 190},
]
pair = [{from = 2, to = 4, lo = 2, hi = 2, peak = 230, off_peak = 200}]
cap = [
  {lo = 1, hi = 2, kind = "anytime", price = 850},
  {lo = 1, hi = 3, kind = "anytime", price = 1000},
  {lo = 1, hi = 2, kind = "off-peak", price = 600},
]
interchange = [{a = 1, b = 4, minutes = 10}]
"#;

/// The digest of its text.
pub const REVISED_DIGEST: [u8; 32] = [
    0x96, 0xcc, 0x50, 0xb0, 0x39, 0x6b, 0x0e, 0x93, 0x39, 0x71, 0xad, 0x24, 0x64, 0xa5, 0x08, 0xf6,
    0x30, 0xc6, 0x46, 0x3f, 0x90, 0xc3, 0x22, 0xda, 0x83, 0x93, 0xbc, 0xc1, 0xa5, 0x46, 0xa9, 0xbe,
];
