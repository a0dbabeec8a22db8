// A row of the settings table.
// What values a setting takes.
#[derive(Clone, Copy, Debug, PartialEq, Eq)]
pub enum Allowed {
    // all numbers from the first to the second
    Span(u16, u16),
    // the ratios of current transformers that are made
    CtRatio,
    // characters of a contract number, one in each cell: capitals, digits, space and hyphen
    ContractText,
}

// Cell: the first cell of the page that holds it. Position and width: where its field stands in a bulk write,
// counted from 1 at ENQ. Initial: what each of its cells holds at first.
#[derive(Clone, Copy, Debug, PartialEq, Eq)]
pub struct Setting {
    pub cell: usize,
    pub position: usize,
    pub width: usize,
    pub allowed: Allowed,
    pub initial: u16,
}
