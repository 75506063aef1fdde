// The archive for C: the functions of `esa` under C's own names and calling convention, each with the same words. What it answers is
// said and proved there; here a function only passes the call on.
#![tactic(auto)]

ghost use Rattle.std.specs.Prelude.{◌≡◌};
ghost use Rattle.parts.specs.Inside.{block_in, pair_in, list_in, list_pair_in, colour_in, colour_pair_in};
ghost use Rattle.metering.specs.Face.{OwnFor};
ghost use Rattle.listing.specs.Lines.{Listed};
ghost use Rattle.format.specs.Writing.{writing};
ghost use Rattle.spelling.specs.Spelling.{Put};
ghost use Rattle.pinsheet.specs.Sheet.{sheet as sheetOf, forward as forwardOf};
ghost use Rattle.sheets.specs.Lines.{read};
ghost use Rattle.pinlines.specs.Text.{text as text_of};
ghost use Rattle.pass.specs.Tracks.{flags};
ghost use Rattle.states.specs.Numbers.{settings_of as settled_of};
ghost use Rattle.ending.specs.Stands.{lent};
ghost use Rattle.receiving.specs.Receiving.{PieceIs};
ghost use Rattle.reports.specs.Face.{StartedFor as BegunFor, EndedFor};
ghost use Rattle.metering.specs.Face.{ReadingFor};
ghost use Rattle.tracing.specs.Calls.{PieceIs as TracePiece, EndIs as TraceEnd};
ghost use Rattle.esa.specs.Traces.{TraceStartFor};
ghost use Rattle.esa.specs.Settled.{chip_of, rules_of, settings_of};
ghost use Rattle.esa.specs.Face.{Checked, AskedFor, PartFor};
ghost use Rattle.esa.specs.Fields.{DescribedFor, FieldsFor};
ghost use Rattle.esa.specs.Places.{PlacedFor, TextPlaced, TextFor};
ghost use Rattle.esa.specs.Labels.{LabelFor};
ghost use Rattle.esa.specs.Fans.{FanFor};
ghost use Rattle.esa.specs.Differences.{DiffFor};
ghost use Rattle.esa.specs.Blocks.{packed_block, packed_pair, packed_entries};
ghost use Rattle.esa.specs.Writing.{StartedFor, AppendedFor, RewrittenFor, RemovedFor};
ghost use Rattle.esa.specs.Sheets.{SheetFor};
ghost use Rattle.esa.specs.Hex.{HexFor, UnhexFor};
ghost use Rattle.esa.specs.Salvage.{SalvagedFor};

#[unsafe(no_mangle)]
pub extern "C" fn esa_check(table: &[u8], settings: u64) -> u64
    ensures { Checked (settings_of settings) table.now result }
{
    esa::esa_check(table, settings)
}

#[unsafe(no_mangle)]
pub extern "C" fn esa_describe(table: &[u8], settings: u64, numbers: &mut [u8; 32]) -> u64
    ensures { DescribedFor (settings_of settings) table.now numbers.old result numbers.new }
{
    esa::esa_describe(table, settings, numbers)
}

#[unsafe(no_mangle)]
pub extern "C" fn esa_element(table: &[u8], k: usize, settings: u64) -> u64
    ensures { AskedFor (settings_of settings) table.now k result }
{
    esa::esa_element(table, k, settings)
}

#[unsafe(no_mangle)]
pub extern "C" fn esa_fields(table: &[u8], k: usize, settings: u64, numbers: &mut [u8; 32]) -> u64
    ensures { FieldsFor (settings_of settings) table.now k numbers.old result numbers.new }
{
    esa::esa_fields(table, k, settings, numbers)
}

#[unsafe(no_mangle)]
pub extern "C" fn esa_part_length(table: &[u8], k: usize, settings: u64) -> usize
    ensures { PartFor (settings_of settings) table.now k result }
{
    esa::esa_part_length(table, k, settings)
}

#[unsafe(no_mangle)]
pub extern "C" fn esa_part(table: &[u8], k: usize, settings: u64) -> u64
    ensures { PlacedFor (settings_of settings) table.now k result }
{
    esa::esa_part(table, k, settings)
}

#[unsafe(no_mangle)]
pub extern "C" fn esa_text(table: &[u8], k: usize, settings: u64) -> u64
    ensures { TextFor (settings_of settings) table.now k result }
{
    esa::esa_text(table, k, settings)
}

#[unsafe(no_mangle)]
pub extern "C" fn esa_label(table: &[u8], k: usize, settings: u64, name: &[u8]) -> u64
    ensures { LabelFor (settings_of settings) table.now k name.now result }
{
    esa::esa_label(table, k, settings, name)
}

#[unsafe(no_mangle)]
pub extern "C" fn esa_fan(table: &[u8], zone: u8, settings: u64) -> u64
    ensures { FanFor (settings_of settings) table.now zone result }
{
    esa::esa_fan(table, zone, settings)
}

#[unsafe(no_mangle)]
pub extern "C" fn esa_reading(table: &[u8], k: usize, count: u64, settings: u64) -> u64
    ensures { ReadingFor (settings_of settings) table.now k count result }
{
    esa::esa_reading(table, k, count, settings)
}

#[unsafe(no_mangle)]
pub extern "C" fn esa_thermistor(count: u64) -> u64
    ensures { OwnFor count result }
{
    esa::esa_thermistor(count)
}

#[unsafe(no_mangle)]
pub extern "C" fn esa_receiving_start(
    n: &mut [usize; 16],
    first: &mut [u8; 30],
    head: &mut [u8; 30],
    settings: usize,
) -> u64
    ensures { BegunFor (settled_of settings) result n.new first.new head.new }
{
    esa::esa_receiving_start(n, first, head, settings)
}

#[unsafe(no_mangle)]
pub extern "C" fn esa_receiving_piece(
    n: &mut [usize; 16],
    first: &mut [u8; 30],
    head: &mut [u8; 30],
    zs: &mut [bool; 256],
    ss: &mut [bool; 256],
    zu: &mut [bool; 256],
    su: &mut [bool; 256],
    zp: &mut [u16; 256],
    sp: &mut [u16; 256],
    piece: &[u8],
) -> u64
    ensures { PieceIs (lent n.old first.old head.old
        (flags zs.old ss.old zu.old su.old) zp.old sp.old)
        piece.now result (lent n.new first.new head.new
        (flags zs.new ss.new zu.new su.new) zp.new sp.new) }
{
    esa::esa_receiving_piece(n, first, head, zs, ss, zu, su, zp, sp, piece)
}

#[unsafe(no_mangle)]
pub extern "C" fn esa_receiving_end(
    n: &mut [usize; 16],
    first: &[u8; 30],
    zs: &[bool; 256],
    ss: &[bool; 256],
    zu: &[bool; 256],
    su: &[bool; 256],
    zp: &[u16; 256],
    sp: &[u16; 256],
) -> u64
    ensures { EndedFor n.old first.now
        (flags zs.now ss.now zu.now su.now) zp.now sp.now result
        n.new }
{
    esa::esa_receiving_end(n, first, zs, ss, zu, su, zp, sp)
}

#[unsafe(no_mangle)]
pub extern "C" fn esa_tracing_start(
    n: &mut [u64; 7],
    sensors: &mut [u16; 576],
    tallies: &mut [u32; 480],
    table: &[u8],
    settings: u64,
) -> u64
    ensures { TraceStartFor (chip_of settings) table.now n.old sensors.old tallies.old result
        n.new sensors.new tallies.new }
{
    esa::esa_tracing_start(n, sensors, tallies, table, settings)
}

#[unsafe(no_mangle)]
pub extern "C" fn esa_tracing_piece(
    n: &mut [u64; 7],
    sensors: &[u16; 576],
    tallies: &mut [u32; 480],
    piece: &[u8],
    out: &mut [u8; 65536],
) -> usize
    ensures { TracePiece n.old sensors.now tallies.old piece.now out.old result
        n.new tallies.new out.new }
{
    esa::esa_tracing_piece(n, sensors, tallies, piece, out)
}

#[unsafe(no_mangle)]
pub extern "C" fn esa_tracing_end(
    n: &[u64; 7],
    sensors: &[u16; 576],
    tallies: &[u32; 480],
    out: &mut [u8; 65536],
) -> usize
    ensures { TraceEnd n.now sensors.now tallies.now out.old result out.new }
{
    esa::esa_tracing_end(n, sensors, tallies, out)
}

#[unsafe(no_mangle)]
pub extern "C" fn esa_block(part: &[u8], j: usize) -> u64
    ensures { result ≡ packed_block (block_in part.now j) }
{
    esa::esa_block(part, j)
}

#[unsafe(no_mangle)]
pub extern "C" fn esa_pair(part: &[u8], j: usize, i: usize) -> u64
    ensures { result ≡ packed_pair (pair_in part.now j i) }
{
    esa::esa_pair(part, j, i)
}

#[unsafe(no_mangle)]
pub extern "C" fn esa_entries(part: &[u8], w: usize) -> u64
    ensures { result ≡ packed_entries (list_in part.now w) }
{
    esa::esa_entries(part, w)
}

#[unsafe(no_mangle)]
pub extern "C" fn esa_entry(part: &[u8], w: usize, i: usize) -> u64
    ensures { result ≡ packed_pair (list_pair_in part.now w i) }
{
    esa::esa_entry(part, w, i)
}

#[unsafe(no_mangle)]
pub extern "C" fn esa_colours(part: &[u8], w: usize) -> u64
    ensures { result ≡ packed_entries (colour_in part.now w) }
{
    esa::esa_colours(part, w)
}

#[unsafe(no_mangle)]
pub extern "C" fn esa_colour(part: &[u8], w: usize, i: usize) -> u64
    ensures { result ≡ packed_pair (colour_pair_in part.now w i) }
{
    esa::esa_colour(part, w, i)
}

#[unsafe(no_mangle)]
pub extern "C" fn esa_start(buffer: &mut [u8], settings: u64, numbers: &[u8; 32]) -> u64
    ensures { StartedFor (chip_of settings) buffer.old numbers.now result buffer.new }
{
    esa::esa_start(buffer, settings, numbers)
}

#[unsafe(no_mangle)]
pub extern "C" fn esa_append(
    buffer: &mut [u8],
    id: u8,
    settings: u64,
    numbers: &[u8; 32],
    part: &[u8],
) -> u64
    ensures { AppendedFor (chip_of settings) buffer.old id numbers.now part.now result
        buffer.new }
{
    esa::esa_append(buffer, id, settings, numbers, part)
}

#[unsafe(no_mangle)]
pub extern "C" fn esa_rewrite(table: &[u8], settings: u64, out: &mut [u8]) -> u64
    ensures { RewrittenFor (chip_of settings) table.now out.old result out.new }
{
    esa::esa_rewrite(table, settings, out)
}

#[unsafe(no_mangle)]
pub extern "C" fn esa_remove(table: &mut [u8], k: usize, settings: u64) -> u64
    ensures { RemovedFor (chip_of settings) table.old k result table.new }
{
    esa::esa_remove(table, k, settings)
}

#[unsafe(no_mangle)]
pub extern "C" fn esa_salvage(
    file: &[u8],
    settings: u64,
    out: &mut [u8],
    lines: &mut [u8; 32768],
) -> u64
    ensures { SalvagedFor (chip_of settings) file.now out.old lines.old result out.new
        lines.new }
{
    esa::esa_salvage(file, settings, out, lines)
}

#[unsafe(no_mangle)]
pub extern "C" fn esa_hex(table: &[u8], settings: u64, out: &mut [u8]) -> u64
    ensures { HexFor (chip_of settings) table.now out.old result out.new }
{
    esa::esa_hex(table, settings, out)
}

#[unsafe(no_mangle)]
pub extern "C" fn esa_unhex(text: &[u8], settings: u64, out: &mut [u8]) -> u64
    ensures { UnhexFor (chip_of settings) text.now out.old result out.new }
{
    esa::esa_unhex(text, settings, out)
}

#[unsafe(no_mangle)]
pub extern "C" fn esa_list(table: &[u8], settings: u64, out: &mut [u8; 4096]) -> usize
    ensures { Listed (settings_of settings) table.now out.old result out.new }
{
    esa::esa_list(table, settings, out)
}

#[unsafe(no_mangle)]
pub extern "C" fn esa_sheet(table: &[u8], settings: u64, sheet: &mut [u16; 25]) -> u64
    ensures { SheetFor (chip_of settings) table.now sheetOf sheet.old result sheet.new }
{
    esa::esa_sheet(table, settings, sheet)
}

#[unsafe(no_mangle)]
pub extern "C" fn esa_sheet_forward(table: &[u8], settings: u64, sheet: &mut [u16; 25]) -> u64
    ensures { SheetFor (chip_of settings) table.now (λ d rs. forwardOf rs (read sheet.old))
        sheet.old result sheet.new }
{
    esa::esa_sheet_forward(table, settings, sheet)
}

#[unsafe(no_mangle)]
pub extern "C" fn esa_sheet_text(sheet: &[u16; 25], settings: u64, out: &mut [u8; 275]) -> usize
    ensures { Put out.old 0 (text_of (chip_of settings) sheet.now) result out.new }
{
    esa::esa_sheet_text(sheet, settings, out)
}

#[unsafe(no_mangle)]
pub extern "C" fn esa_diff(one: &[u8], two: &[u8], settings: u64, out: &mut [u8; 65536]) -> u64
    ensures { DiffFor (chip_of settings) one.now two.now out.old result out.new }
{
    esa::esa_diff(one, two, settings, out)
}
