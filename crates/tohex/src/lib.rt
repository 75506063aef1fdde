// A table moved into Intel HEX.
#![tactic(auto)]

ghost use Rattle.std.specs.Prelude.{◌≡◌, ◌+◌, ◌*◌, ◌≤◌, length};
ghost use Rattle.format.specs.Answers.{told};
ghost use Rattle.spelling.specs.Spelling.{Put};
ghost use Rattle.hextext.specs.Text.{data_text, line_count, hex_of};
ghost use Rattle.hextext.specs.Moved.{Moved};

use format::answers::{Refusal, Rule};
use format::pins::Chip;
use format::settings::{Rules, Settings};
use hextext::{END, put_data};
use spelling::put;

// Writes the text of an accepted table into a buffer that is long enough: 0 with the text's length. The table's refusal by the
// archive's rules, or 16 at 0 where the buffer is too short; then no byte of it alters.
pub fn to_hex(table: &[u8], out: &mut [u8], chip: Chip) -> Result<usize, Refusal>
    ensures { Moved chip table.now (hex_of table.now) out.old (told result) out.new }
{
    let settings = Settings {
        chip,
        rules: Rules::Archive,
    };
    reader::check(table, settings)?;
    let n = table.len();
    if out.len() < 12 * ((n + 15) / 16) + 2 * n + 12 {
        return Err(Rule::NoRoom.at(0));
    }
    let end = put_lines(table, out);
    Ok(put(out, end, &END))
}

// The data records of a table, 16 bytes in each but the last.
fn put_lines(table: &[u8], out: &mut [u8]) -> usize
    requires { (length table.now ≤ 4096) × (12 * line_count (length table.now) + 2 * length table.now ≤ length out.old) }
    ensures { Put out.old 0 (data_text table.now) result out.new }
{
    let mut end = 0;
    for (k, part) in table.chunks(16).enumerate() {
        end = put_data(out, end, 16 * k, part);
    }
    end
}
