// The listing of a table, as text in a lent buffer: one record a line, fields parted by tabs.
#![tactic(auto)]

ghost use Rattle.std.specs.Prelude.{◌≡◌, false, [], ◌∷◌, ◌++◌, ◌+◌, ◌*◌, ◌≤◌, length};
ghost use Rattle.format.specs.Rules.{in_use};
ghost use Rattle.format.specs.declared.settings.Rules.TheVariants.{Ordinary};
ghost use Rattle.shown.specs.Own.{own_pins, no_pins};
ghost use Rattle.spelling.specs.Spelling.{Put, decimal, hex_pair, pin_or_dash};
ghost use Rattle.listing.specs.Lines.{line, supply, hardware_pins, after_type, table_line, pins_text, last_field, zone_text, element_line};
ghost use Rattle.listing.specs.Lines.{refused_line, Listed};

use elements::{byte_of, id_of};
use format::records::{Description, Element};
use format::settings::Settings;
use format::units::FourMilliamps;
use shown::{OwnPins, shown};
use spelling::{put, put_decimal, put_hex, put_pin_or_dash, put_pins};
use walking::{Places, element_at, part_at};

// Puts the listing of a table at the front of the buffer, and answers its length. No listing is longer than 3,715 bytes.
pub fn list(table: &[u8], out: &mut [u8; 4096], settings: Settings) -> usize
    ensures { Listed settings table.now out.old result out.new }
{
    let answer = reader::check(table, settings);
    let Ok(_) = answer else {
        let refusal = answer.unwrap_err();
        return put_refused(out, refusal.rule.number(), refusal.place);
    };
    let chip = settings.chip;
    let mut end = put_table(out, table.len(), fields::description(table, chip));
    for at in Places::of(table) {
        let e = element_at(table, at, chip);
        end = put_element(out, end, at, e, part_at(table, at));
    }
    end
}

// The line of a refused table.
fn put_refused(out: &mut [u8], k: u8, p: usize) -> usize
    requires { 20 ≤ length out.old }
    ensures { Put out.old 0 (refused_line k p) result out.new }
{
    let a = put(out, 0, b"R\t");
    let b = put_number(out, a, usize::from(k));
    let c = put_decimal(out, b, p);
    put(out, c, b"\n")
}

// The line of a table of n bytes.
fn put_table(out: &mut [u8], n: usize, d: Description) -> usize
    requires { 67 ≤ length out.old }
    ensures { Put out.old 0 (table_line n d) result out.new × (result ≤ 67) }
{
    let a = put(out, 0, b"T\t0.90\t");
    let b = put_number(out, a, n);
    let c = put_number(out, b, usize::from(d.device));
    put_after_type(out, c, d)
}

// What follows the device type.
fn put_after_type(out: &mut [u8], at: usize, d: Description) -> usize
    requires { at + 42 ≤ length out.old }
    ensures { Put out.old at (line (after_type d)) result out.new × (result ≤ at + 42) }
{
    let a = put_number(out, at, usize::from(d.string));
    let b = put_number(out, a, d.serial as usize);
    let c = put_supply(out, b, d);
    put_hardware(out, c, d)
}

// `self` or milliamps, and a tab.
fn put_supply(out: &mut [u8], at: usize, d: Description) -> usize
    requires { at + 9 ≤ length out.old }
    ensures { Put out.old at (supply d ++ 9 ∷ []) result out.new × (result ≤ at + 9) }
{
    if d.spwr {
        return put(out, at, b"self\t");
    }
    let m = in_milliamps(d.power);
    put_number(out, at, m.0)
}

#[derive(Clone, Copy)]
pub struct Milliamps(pub usize);

// Power units are of 4 mA.
fn in_milliamps(p: FourMilliamps) -> Milliamps
    ensures { result.0 ≡ 4 * p.0 }
{
    Milliamps(4 * usize::from(p.0))
}

// The three hardware revision pins, and the end of the line.
fn put_hardware(out: &mut [u8], at: usize, d: Description) -> usize
    requires { at + 15 ≤ length out.old }
    ensures { Put out.old at (line (hardware_pins d)) result out.new × (result ≤ at + 15) }
{
    let p = d.revision0;
    let q = d.revision1;
    let r = d.revision2;
    let a = put_pin(out, at, byte_of(p), 9);
    let b = put_pin(out, a, byte_of(q), 9);
    put_pin(out, b, byte_of(r), 10)
}

// A pin or `-`, and what ends the field.
fn put_pin(out: &mut [u8], at: usize, p: u8, end: u8) -> usize
    requires { at + 5 ≤ length out.old }
    ensures { Put out.old at (pin_or_dash p ++ end ∷ []) result out.new × (result ≤ at + 5) }
{
    let a = put_pin_or_dash(out, at, p);
    put(out, a, &[end])
}

// The line of an element at a place of the table, with its part. What is not in use has no pin of its own, and so its line is no
// longer than another.
fn put_element(out: &mut [u8], at: usize, place: usize, e: Element, part: &[u8]) -> usize
    requires { (at + 38 ≤ length out.old) × (in_use Ordinary e ≡ false → own_pins e ≡ no_pins) }
    ensures { Put out.old at (element_line place e part.now) result out.new × (result ≤ at + 38) }
{
    let w = shown(e, part);
    let a = put(out, at, b"E\t");
    let b = put_number(out, a, place);
    let c = put_id(out, b, id_of(e));
    let d = put_zone(out, c, w.zone);
    let p = w.pins;
    put_own(out, d, p, w.used)
}

// The identifier, and a tab.
fn put_id(out: &mut [u8], at: usize, id: u8) -> usize
    requires { at + 3 ≤ length out.old }
    ensures { Put out.old at (hex_pair id ++ 9 ∷ []) result out.new × (result ≡ at + 3) }
{
    let a = put_hex(out, at, id);
    put(out, a, b"\t")
}

// The zone or `-`, and a tab.
fn put_zone(out: &mut [u8], at: usize, zone: Option<u8>) -> usize
    requires { at + 9 ≤ length out.old }
    ensures { Put out.old at (zone_text zone ++ 9 ∷ []) result out.new × (result ≤ at + 9) }
{
    let Some(z) = zone else {
        return put(out, at, b"-\t");
    };
    put_number(out, at, usize::from(z))
}

// The own pins, `retired` of what is not in use, and the end of the line.
fn put_own(out: &mut [u8], at: usize, p: OwnPins, used: bool) -> usize
    requires { (at + 15 ≤ length out.old) × (used ≡ false → p ≡ no_pins) }
    ensures { Put out.old at (line (pins_text p ∷ last_field used)) result out.new × (result ≤ at + 15) }
{
    let a = put_pins(out, at, p.one, p.two, p.three);
    if used {
        return put(out, a, b"\n");
    }
    put(out, a, b"\tretired\n")
}

// A number and a tab.
fn put_number(out: &mut [u8], at: usize, n: usize) -> usize
    requires { at + 9 ≤ length out.old }
    ensures { Put out.old at (decimal n ++ 9 ∷ []) result out.new × (result ≤ at + 9) }
{
    let a = put_decimal(out, at, n);
    put(out, a, b"\t")
}
