// One tuple struct for each unit that the specification names, so that no two of them can be mixed.

// X POS, Y POS and Z POS (000, 7.3).
#[derive(Clone, Copy)]
pub struct Centimetres(pub u8);

// MINIMUM TEMP and MAXIMUM TEMP, in degrees centigrade (000, 8.4).
#[derive(Clone, Copy)]
pub struct Degrees(pub u8);

// The calibration values of the ten-bit converter, 0 to 1023 (000, 8.5 and 8.8).
#[derive(Clone, Copy)]
pub struct Counts(pub u16);

// MINIMUM RPM and MAXIMUM RPM (000, 8.6).
#[derive(Clone, Copy)]
pub struct Rpm(pub u16);

// VMAX and VMIN (000, 8.10).
#[derive(Clone, Copy)]
pub struct Decivolts(pub u8);

// IMIN and IMAX (000, 8.11).
#[derive(Clone, Copy)]
pub struct Deciamps(pub u16);

// POWER UNITS, of 4 mA each (000, 8.2).
#[derive(Clone, Copy)]
pub struct FourMilliamps(pub u8);

// SPEED, in units of 100 RPM (000, 8.12.1).
#[derive(Clone, Copy)]
pub struct HundredRpm(pub u8);
