// A pin, and what it is used for.

// The chips that a board may carry. No table names its chip: the caller does.
#[derive(Clone, Copy, PartialEq, Eq)]
pub enum Chip {
    C8051F320,
    C8051F321,
}

// A place that needs a pin: its byte, with the port in bits 7-4 and the pin in bits 3-0, and its chip. FFh is a pin that does not
// exist. A place that may be unused (hardware revision, tachometer, status LED) is an Option: FFh means None, which has no chip.
#[derive(Clone, Copy)]
pub struct Pin(pub u8, pub Chip);

// The uses of a pin (01, 'Permitted, from 000, clause 5.4').
#[derive(Clone, Copy)]
pub enum Use {
    // PWM, tachometer, red, green, blue
    FanPin,
    AnaloguePin,
    ChipSelect,
    StatusLed,
    HardwareRevision,
}
