// The energies of an hour.

// The total and each buyer's purchase in kWh; buyer 0 is the retailer.
#[derive(Clone, Copy, PartialEq, Eq)]
pub struct Energies {
    pub total: u32,
    pub purchases: [u32; 8],
}
