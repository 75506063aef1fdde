// The C face: numbers and byte slices. An answer leaves as one number: the number of 'What comes back' and 256 times what
// stands beside it. Settings come as one number: bit 0 set is the 321, bit 1 the archive's rules, other bits are ignored; the writer
// and the pin sheet ignore bit 1 too.
#![tactic(auto)]

ghost use Rattle.std.specs.Prelude.{◌≡◌};
ghost use Rattle.parts.specs.Inside.{block_in, pair_in, list_in, list_pair_in, colour_in, colour_pair_in};
ghost use Rattle.metering.specs.Face.{OwnFor};
ghost use Rattle.listing.specs.Lines.{Listed};
ghost use Rattle.format.specs.Writing.{writing};
ghost use Rattle.spelling.specs.Spelling.{Put};
ghost use Rattle.pinsheet.specs.Sheet.{sheet as sheetOf, forward as forwardOf};
ghost use Rattle.sheets.specs.Lines.{read};
ghost use Rattle.pinlines.specs.Text.{text as text_of};
ghost use Rattle.pass.specs.Tracks.{flags};
ghost use Rattle.states.specs.Numbers.{settings_of as settled_of};
ghost use Rattle.ending.specs.Stands.{lent};
ghost use Rattle.receiving.specs.Receiving.{PieceIs};
ghost use Rattle.reports.specs.Face.{StartedFor as BegunFor, EndedFor};
ghost use Rattle.metering.specs.Face.{ReadingFor};
ghost use Rattle.tracing.specs.Calls.{PieceIs as TracePiece, EndIs as TraceEnd};
ghost use Rattle.esa.specs.Traces.{TraceStartFor};
ghost use Rattle.esa.specs.Settled.{chip_of, rules_of, settings_of};
ghost use Rattle.esa.specs.Face.{Checked, AskedFor, PartFor};
ghost use Rattle.esa.specs.Fields.{DescribedFor, FieldsFor};
ghost use Rattle.esa.specs.Places.{PlacedFor, TextPlaced, TextFor};
ghost use Rattle.esa.specs.Labels.{LabelFor};
ghost use Rattle.esa.specs.Fans.{FanFor};
ghost use Rattle.esa.specs.Differences.{DiffFor};
ghost use Rattle.esa.specs.Blocks.{packed_block, packed_pair, packed_entries};
ghost use Rattle.esa.specs.Writing.{StartedFor, AppendedFor, RewrittenFor, RemovedFor};
ghost use Rattle.esa.specs.Sheets.{SheetFor};
ghost use Rattle.esa.specs.Hex.{HexFor, UnhexFor};
ghost use Rattle.esa.specs.Salvage.{SalvagedFor};

use format::pins::Chip;
use format::settings::{Rules, Settings};

mod packing;

// Beside 0 stands the number of elements, beside a refusal its place.
pub fn esa_check(table: &[u8], settings: u64) -> u64
    ensures { Checked (settings_of settings) table.now result }
{
    packing::answer(reader::check(table, settings_of(settings)))
}

// The description's numbers, where the answer is 0; with a refusal the numbers are left as they were.
pub fn esa_describe(table: &[u8], settings: u64, numbers: &mut [u8; 32]) -> u64
    ensures { DescribedFor (settings_of settings) table.now numbers.old result numbers.new }
{
    let s = settings_of(settings);
    match reader::description(table, s) {
        Ok(d) => {
            let chip = s.chip;
            *numbers = numbered::description(d, chip);
            0
        }
        Err(refusal) => packing::refused(refusal),
    }
}

// Beside 0 stands the identifier of element k, beside a refusal its place.
pub fn esa_element(table: &[u8], k: usize, settings: u64) -> u64
    ensures { AskedFor (settings_of settings) table.now k result }
{
    packing::asked(reader::element(table, k, settings_of(settings)))
}

// The same, and the numbers of element k where the answer is 0.
pub fn esa_fields(table: &[u8], k: usize, settings: u64, numbers: &mut [u8; 32]) -> u64
    ensures { FieldsFor (settings_of settings) table.now k numbers.old result numbers.new }
{
    let s = settings_of(settings);
    match reader::element(table, k, s) {
        Ok(e) => {
            let chip = s.chip;
            *numbers = numbered::element(e, reader::part(table, k, s), chip);
            packing::pack(0, usize::from(elements::id_of(e)))
        }
        Err(refusal) => packing::refused(refusal),
    }
}

// The length of the variable part of element k; 0 with a refusal.
pub fn esa_part_length(table: &[u8], k: usize, settings: u64) -> usize
    ensures { PartFor (settings_of settings) table.now k result }
{
    let part = reader::part(table, k, settings_of(settings));
    part.len()
}

// Where the variable part of element k stands in the table, and how long it is.
pub fn esa_part(table: &[u8], k: usize, settings: u64) -> u64
    ensures { PlacedFor (settings_of settings) table.now k result }
{
    match reader::part_place(table, k, settings_of(settings)) {
        Ok(span) => packing::span(span.place, span.len),
        Err(refusal) => packing::refused(refusal),
    }
}

// The same of the text of a string; 0 for an element that is none.
pub fn esa_text(table: &[u8], k: usize, settings: u64) -> u64
    ensures { TextFor (settings_of settings) table.now k result }
{
    let s = settings_of(settings);
    match reader::element(table, k, s) {
        Ok(e) => {
            if elements::id_of(e) != 0x0c {
                return 0;
            }
            text(table, k, s)
        }
        Err(refusal) => packing::refused(refusal),
    }
}

// The label of element k: of which slice it is a part, 0 the table or 1 the lent name, where in it, and how long. It is the whole
// name, also where that is longer than the 24 bits of the length can say.
pub fn esa_label(table: &[u8], k: usize, settings: u64, name: &[u8]) -> u64
    ensures { LabelFor (settings_of settings) table.now k name.now result }
{
    let lent = name.len();
    packing::label(labels::find(table, k, settings_of(settings)), lent)
}

// Is there a fan or a pump in this zone? Beside 0 stands twice the number of elements visited, and 1 more where there is one; beside a
// refusal its place.
pub fn esa_fan(table: &[u8], zone: u8, settings: u64) -> u64
    ensures { FanFor (settings_of settings) table.now zone result }
{
    packing::zoned(fans::in_zone(table, zone, settings_of(settings)))
}

// What a count, or of a fan or a pump the pulses in one second, means at element k. Beside 0 stands four times the reading, or 1
// for under 0, 2 for over 100; beside a refusal its place.
pub fn esa_reading(table: &[u8], k: usize, count: u64, settings: u64) -> u64
    ensures { ReadingFor (settings_of settings) table.now k count result }
{
    metering::packed_reading(table, k, count, settings_of(settings))
}

// The same of our own thermistor, from the ready table alone: for the meter, which has no table and cannot divide.
pub fn esa_thermistor(count: u64) -> u64
    ensures { OwnFor count result }
{
    metering::packed_own(count)
}

// A table that comes in pieces, over a state that is lent part by part: begins with no byte. 0.
pub fn esa_receiving_start(
    n: &mut [usize; 16],
    first: &mut [u8; 30],
    head: &mut [u8; 30],
    settings: usize,
) -> u64
    ensures { BegunFor (settled_of settings) result n.new first.new head.new }
{
    reports::start(n, first, head, settings)
}

// The next bytes: 0, or 20 after the end.
pub fn esa_receiving_piece(
    n: &mut [usize; 16],
    first: &mut [u8; 30],
    head: &mut [u8; 30],
    zs: &mut [bool; 256],
    ss: &mut [bool; 256],
    zu: &mut [bool; 256],
    su: &mut [bool; 256],
    zp: &mut [u16; 256],
    sp: &mut [u16; 256],
    piece: &[u8],
) -> u64
    ensures { PieceIs (lent n.old first.old head.old
        (flags zs.old ss.old zu.old su.old) zp.old sp.old)
        piece.now result (lent n.new first.new head.new
        (flags zs.new ss.new zu.new su.new) zp.new sp.new) }
{
    reports::piece(n, first, head, zs, ss, zu, su, zp, sp, piece)
}

// No more bytes come. Beside 0 stands the number of elements, beside a refusal its place.
pub fn esa_receiving_end(
    n: &mut [usize; 16],
    first: &[u8; 30],
    zs: &[bool; 256],
    ss: &[bool; 256],
    zu: &[bool; 256],
    su: &[bool; 256],
    zp: &[u16; 256],
    sp: &[u16; 256],
) -> u64
    ensures { EndedFor n.old first.now
        (flags zs.now ss.now zu.now su.now) zp.now sp.now result
        n.new }
{
    reports::end(n, first, zs, ss, zu, su, zp, sp)
}

// A trace, over a state that is lent part by part: begins, for a table by the ordinary rules. Beside 0 stands the number of
// elements, beside a refusal its place.
pub fn esa_tracing_start(
    n: &mut [u64; 7],
    sensors: &mut [u16; 576],
    tallies: &mut [u32; 480],
    table: &[u8],
    settings: u64,
) -> u64
    ensures { TraceStartFor (chip_of settings) table.now n.old sensors.old tallies.old result
        n.new sensors.new tallies.new }
{
    packing::answer(readying::start(n, sensors, tallies, table, chip_of(settings)))
}

// The next bytes, at most 2,048 of them: the length of the text.
pub fn esa_tracing_piece(
    n: &mut [u64; 7],
    sensors: &[u16; 576],
    tallies: &mut [u32; 480],
    piece: &[u8],
    out: &mut [u8; 65536],
) -> usize
    ensures { TracePiece n.old sensors.now tallies.old piece.now out.old result
        n.new tallies.new out.new }
{
    tracing::piece(n, sensors, tallies, piece, out)
}

// No more comes: the length of the text.
pub fn esa_tracing_end(
    n: &[u64; 7],
    sensors: &[u16; 576],
    tallies: &[u32; 480],
    out: &mut [u8; 65536],
) -> usize
    ensures { TraceEnd n.now sensors.now tallies.now out.old result out.new }
{
    tracing::end(n, sensors, tallies, out)
}

// 09h: SPEED and ENTRIES of speed block j of a part.
pub fn esa_block(part: &[u8], j: usize) -> u64
    ensures { result ≡ packed_block (block_in part.now j) }
{
    packing::block(parts::block(part, j))
}

// 09h: address and data of register pair i of speed block j.
pub fn esa_pair(part: &[u8], j: usize, i: usize) -> u64
    ensures { result ≡ packed_pair (pair_in part.now j i) }
{
    packing::pair(parts::pair(part, j, i))
}

// 0Ah: ENTRIES of block w of a part, 0 or 1.
pub fn esa_entries(part: &[u8], w: usize) -> u64
    ensures { result ≡ packed_entries (list_in part.now w) }
{
    packing::entries(parts::list(part, w))
}

// 0Ah: address and data of register pair i of block w.
pub fn esa_entry(part: &[u8], w: usize, i: usize) -> u64
    ensures { result ≡ packed_pair (list_pair_in part.now w i) }
{
    packing::pair(parts::list_pair(part, w, i))
}

// 0Dh: ENTRIES of block w of a part, 0 for red, 1 for green, 2 for blue.
pub fn esa_colours(part: &[u8], w: usize) -> u64
    ensures { result ≡ packed_entries (colour_in part.now w) }
{
    packing::entries(parts::colour(part, w))
}

// 0Dh: address and data of register pair i of block w.
pub fn esa_colour(part: &[u8], w: usize, i: usize) -> u64
    ensures { result ≡ packed_pair (colour_pair_in part.now w i) }
{
    packing::pair(parts::colour_pair(part, w, i))
}

// Starts a table with the description in the numbers. Beside 0 stands the length, beside a refusal its place.
pub fn esa_start(buffer: &mut [u8], settings: u64, numbers: &[u8; 32]) -> u64
    ensures { StartedFor (chip_of settings) buffer.old numbers.now result buffer.new }
{
    let chip = chip_of(settings);
    packing::answer(writer::start(buffer, numbers::description(numbers), chip))
}

// Appends the element of this identifier in the numbers, with its variable part. Beside 0 stands the new length, beside a
// refusal its place; 7 for an identifier that is not one of the fourteen.
pub fn esa_append(buffer: &mut [u8], id: u8, settings: u64, numbers: &[u8; 32], part: &[u8]) -> u64
    ensures { AppendedFor (chip_of settings) buffer.old id numbers.now part.now result
        buffer.new }
{
    let chip = chip_of(settings);
    match numbers::element(id, numbers) {
        Some(e) => packing::answer(writer::append(buffer, e, part, chip)),
        None => 7,
    }
}

// The records of an accepted table, written again into a buffer, by the writer's rules. Beside 0 stands the length, beside a
// refusal its place.
pub fn esa_rewrite(table: &[u8], settings: u64, out: &mut [u8]) -> u64
    ensures { RewrittenFor (chip_of settings) table.now out.old result out.new }
{
    packing::answer(rewriting::rewrite(table, out, chip_of(settings)))
}

// Takes element k out of the lent table, by the writer's rules. Beside 0 stands the new length, beside a refusal its place.
pub fn esa_remove(table: &mut [u8], k: usize, settings: u64) -> u64
    ensures { RemovedFor (chip_of settings) table.old k result table.new }
{
    packing::answer(removing::remove(table, k, chip_of(settings)))
}

// What can be saved of a damaged table, at the front of the buffer, and its lines at the front of the other, by the writer's rules.
// Beside 0 stand both lengths, beside a refusal its place.
pub fn esa_salvage(file: &[u8], settings: u64, out: &mut [u8], lines: &mut [u8; 32768]) -> u64
    ensures { SalvagedFor (chip_of settings) file.now out.old lines.old result out.new
        lines.new }
{
    packing::salvaged(salvaging::salvage(file, out, lines, chip_of(settings)))
}

// The text in Intel HEX of a table that the archive's rules accept, at the front of the buffer. Beside 0 stands its length, beside a
// refusal its place.
pub fn esa_hex(table: &[u8], settings: u64, out: &mut [u8]) -> u64
    ensures { HexFor (chip_of settings) table.now out.old result out.new }
{
    packing::answer(tohex::to_hex(table, out, chip_of(settings)))
}

// The table that a text in Intel HEX sends, at the front of the buffer, if the archive's rules accept it. Beside 0 stands its length,
// beside 21 the number of the first bad line, beside another refusal its place.
pub fn esa_unhex(text: &[u8], settings: u64, out: &mut [u8]) -> u64
    ensures { UnhexFor (chip_of settings) text.now out.old result out.new }
{
    packing::answer(fromhex::from_hex(text, out, chip_of(settings)))
}

// The listing of a table at the front of the buffer. The answer is its length in bytes.
pub fn esa_list(table: &[u8], settings: u64, out: &mut [u8; 4096]) -> usize
    ensures { Listed (settings_of settings) table.now out.old result out.new }
{
    listing::list(table, out, settings_of(settings))
}

// The pin sheet of a table, made afresh, by the ordinary rules. Beside 0 stands the number of elements, beside a refusal its place;
// then the old sheet is kept.
pub fn esa_sheet(table: &[u8], settings: u64, sheet: &mut [u16; 25]) -> u64
    ensures { SheetFor (chip_of settings) table.now sheetOf sheet.old result sheet.new }
{
    packing::answer(sheets::make(table, sheet, ordinary(settings)))
}

// The same of the sheet of the table before its last element was appended, brought forward.
pub fn esa_sheet_forward(table: &[u8], settings: u64, sheet: &mut [u16; 25]) -> u64
    ensures { SheetFor (chip_of settings) table.now (λ d rs. forwardOf rs (read sheet.old))
        sheet.old result sheet.new }
{
    packing::answer(sheets::forward(table, sheet, ordinary(settings)))
}

// The lines of a pin sheet at the front of the buffer. The answer is their length in bytes.
pub fn esa_sheet_text(sheet: &[u16; 25], settings: u64, out: &mut [u8; 275]) -> usize
    ensures { Put out.old 0 (text_of (chip_of settings) sheet.now) result out.new }
{
    pinlines::text(sheet, out, chip_of(settings))
}

// What differs between two tables, by the archive's rules, at the front of the buffer. Beside 0 stands the length of the text; beside a
// refusal its place, and in bits 31-24 which table is refused, 1 or 2.
pub fn esa_diff(one: &[u8], two: &[u8], settings: u64, out: &mut [u8; 65536]) -> u64
    ensures { DiffFor (chip_of settings) one.now two.now out.old result out.new }
{
    packing::outcome(comparing::compare(one, two, out, chip_of(settings)))
}

// Where the text of element k stands if it is a string: at byte 3 of its part.
fn text(table: &[u8], k: usize, s: Settings) -> u64
    ensures { TextPlaced s table.now k result }
{
    match reader::part_place(table, k, s) {
        Ok(span) => {
            let text = parts::text(reader::part(table, k, s));
            packing::span(span.place + 3, text.len())
        }
        Err(refusal) => packing::refused(refusal),
    }
}

fn chip_of(settings: u64) -> Chip
    ensures { result ≡ chip_of settings }
{
    if settings % 2 == 0 {
        Chip::C8051F320
    } else {
        Chip::C8051F321
    }
}

fn rules_of(settings: u64) -> Rules
    ensures { result ≡ rules_of settings }
{
    if settings / 2 % 2 == 0 {
        Rules::Ordinary
    } else {
        Rules::Archive
    }
}

fn settings_of(settings: u64) -> Settings
    ensures { result ≡ settings_of settings }
{
    Settings {
        chip: chip_of(settings),
        rules: rules_of(settings),
    }
}

// The ordinary rules, whatever bit 1 says.
fn ordinary(settings: u64) -> Settings
    ensures { result ≡ writing (chip_of settings) }
{
    Settings {
        chip: chip_of(settings),
        rules: Rules::Ordinary,
    }
}
