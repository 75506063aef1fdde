// The pin sheet of a table in a lent place, made afresh or brought forward: for each of the 25 pins from P0.0 up the place of its first
// claimant, 0 for the description, 65,534 for the fault LED, 65,535 where the pin is free; so it stands for those that the chip lacks.
#![tactic(auto)]

ghost use Rattle.std.specs.Prelude.{◌≡◌, true, [], ℕ, ◌<◌, ◌≤◌, length, get_or};
ghost use Rattle.format.specs.Answers.{told};
ghost use Rattle.format.specs.Slots.{byte, Bytes};
ghost use Rattle.format.specs.Pins.{every};
ghost use Rattle.format.specs.Records.{Record};
ghost use Rattle.format.specs.Rules.{pinned};
ghost use Rattle.format.specs.Claims.{made_at, claims_of};
ghost use Rattle.format.specs.Decode.{read_description};
ghost use Rattle.format.specs.Verdict.{Verdict};
ghost use Rattle.format.specs.Answers.{Gives as Accepted};
ghost use Rattle.walking.specs.Walk.{Here};
ghost use Rattle.pinsheet.specs.Sheet.{blank, entered, sheet as sheetOf, forward as forwardOf};
ghost use Rattle.sheets.specs.Lines.{read, line_from, Lines, Filled, Leaves};
ghost use Rattle.sheets.specs.Named.{is_one, by_pins, bus_pins, shared_pins};

use elements::id_of;
use format::answers::Refusal;
use format::pins::Chip;
use format::settings::Settings;
use shown::{OwnPins, own, shown};
use walking::{Places, element_at, part_at, place_of};

// The sheet of a table, made afresh; with a refusal, the table's, the old one is kept.
pub fn make(table: &[u8], sheet: &mut [u16; 25], settings: Settings) -> Result<usize, Refusal>
    ensures { Leaves settings table.now sheetOf sheet.old (told result) sheet.new }
{
    let count = reader::check(table, settings)?;
    fill(table, sheet, settings);
    Ok(count)
}

// The sheet of a table before its last element was appended, brought forward: of the elements only the last is looked at. With a
// refusal, the new table's, the old sheet is kept.
pub fn forward(table: &[u8], sheet: &mut [u16; 25], settings: Settings) -> Result<usize, Refusal>
    ensures { Leaves settings table.now (λ d rs. forwardOf rs (read sheet.old)) sheet.old (told result)
        sheet.new }
{
    let n = reader::check(table, settings)?;
    bring(table, n, sheet, settings);
    Ok(n)
}

// The sheet of a table whose acceptance is shown.
fn fill(t: &[u8], s: &mut [u16; 25], settings: Settings)
    requires { (n : ℕ) × Verdict settings t.now (Accepted n) }
    ensures { Filled settings t.now sheetOf s.new }
{
    let chip = settings.chip;
    first(t, s, chip);
    for at in Places::of(t) {
        enter_element(t, at, s, chip);
    }
}

// The sheet brought forward by the last of the n elements of such a table; where there is none, no pin is entered.
fn bring(t: &[u8], n: usize, s: &mut [u16; 25], settings: Settings)
    requires { Bytes t.now × Verdict settings t.now (Accepted n) }
    ensures { Filled settings t.now (λ d rs. forwardOf rs (read s.old)) s.new }
{
    if n == 0 {
        enter(s, own(255, 255, 255), 0);
        return;
    }
    let chip = settings.chip;
    enter_element(t, place_of(t, n - 1), s, chip);
}

// The fault LED has P1.0; then come hardware revision 0, 1, 2.
fn first(t: &[u8], s: &mut [u16; 25], chip: Chip)
    requires { 16 ≤ length t.now }
    ensures { Lines (sheetOf (read_description chip (byte t.now)) []) s.new }
{
    clear(s);
    enter(s, own(t[9], t[10], t[11]), 0);
}

// All pins free but P1.0.
fn clear(s: &mut [u16; 25])
    ensures { read s.new ≡ blank every }
{
    *s = [65535u16; 25];
    s[8] = 65534;
}

// The claims of the element at a place: shared pins, then its own.
fn enter_element(t: &[u8], at: usize, s: &mut [u16; 25], chip: Chip)
    requires { ((x : Record) × Here chip t.now at x) × (at < 4096) }
    ensures { (x : Record) → Here chip t.now at x → pinned chip x ≡ true
        → Lines (entered every (made_at at (claims_of x)) (read s.old)) s.new }
{
    let e = element_at(t, at, chip);
    let w = shown(e, part_at(t, at));
    let pins = w.pins;
    enter(s, shared_pins(id_of(e), pins.one), at as u16);
    enter(s, pins, at as u16);
}

// Its shared pins, by its identifier; those of a device on a bus by whether it has a chip select.
fn shared_pins(id: u8, select: u8) -> OwnPins
    ensures { result ≡ shared_pins id select }
{
    if (id == 1) | (id == 9) | (id == 10) | (id == 13) {
        return bus_pins(select);
    }
    if (id == 2) | (id == 5) | (id == 7) | (id == 8) {
        return own(7, 255, 255);
    }
    own(255, 255, 255)
}

// SPI has P0.0 to P0.2, and any other bus P0.3 and P0.4.
fn bus_pins(select: u8) -> OwnPins
    ensures { result ≡ bus_pins select }
{
    if select == 255 {
        own(3, 4, 255)
    } else {
        own(0, 1, 2)
    }
}

// The free ones of three pins are this place's.
fn enter(s: &mut [u16; 25], pins: OwnPins, at: u16)
    requires { at < 65534 }
    ensures { Lines (entered every (made_at at (by_pins pins)) (read s.old)) s.new }
{
    let mut new = [65535u16; 25];
    for i in 0..25 {
        new[i] = line(s[i], pin_at(i), pins, at);
    }
    *s = new;
}

// A pin's number, where three pins are claimed from a place.
fn line(old: u16, pin: u8, pins: OwnPins, at: u16) -> u16
    ensures { result ≡ line_from at (is_one pin pins) old }
{
    if (old == 65535) & ((pin == pins.one) | ((pin == pins.two) | (pin == pins.three))) {
        at
    } else {
        old
    }
}

// Pin i of the 25.
pub fn pin_at(i: usize) -> u8
    requires { i < 25 }
    ensures { result ≡ get_or every i 0 }
{
    (16 * (i / 8) + i % 8) as u8
}
