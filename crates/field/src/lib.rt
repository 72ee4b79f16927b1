// Packed fields of a slice of octets, most significant bit first. What a field is stands in specs/; crates above take and put them.
#![tactic(auto)]

// Four fields that lie one after another, by their values.
#[derive(Drop)]
pub struct Four {
    pub first: usize,
    pub second: usize,
    pub third: usize,
    pub fourth: usize,
}
