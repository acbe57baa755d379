// What a run counted.
use crate::part::Part;
use ptu_definitions::Summary;
use tally_base::Header;

/// What a run counted.
#[derive(Drop)]
pub struct Results {
    /// The header of the file.
    pub header: Header,
    /// The counts of its records.
    pub summary: Summary,
    /// The tables, all closed, in the order of the report: by kinds, and by numbers in each.
    pub parts: Vec<Part>,
}
