// The units of readings that no field of a table has.

// Temperatures that are read: tenths of a degree centigrade, 0 to 1000.
#[derive(Clone, Copy)]
pub struct Tenths(pub u16);

// Speeds that are read. A field of a table holds 16 bits (`Rpm` of `format`), but 60 x 65,535 pulses at one a turn are 3,932,100.
#[derive(Clone, Copy)]
pub struct ReadRpm(pub u32);
