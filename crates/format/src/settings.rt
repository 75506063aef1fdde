// What the caller chooses of a reading.
use crate::pins::Chip;

// Whose rules: those for tables in use, or the archive's, which keep what has been retired.
#[derive(Clone, Copy)]
pub enum Rules {
    Ordinary,
    Archive,
}

#[derive(Clone, Copy)]
pub struct Settings {
    pub chip: Chip,
    pub rules: Rules,
}
