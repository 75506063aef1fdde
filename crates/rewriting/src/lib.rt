// A table's records read one by one and written again by start and append, with the same chip named: demand 2 as one call. It has the
// writer's rules, the ordinary ones.
#![tactic(auto)]

ghost use Rattle.rewriting.specs.Again.{Rewritten};
ghost use Rattle.format.specs.Answers.{told};

use format::answers::{Refusal, Rule};
use format::pins::Chip;
use format::settings::{Rules, Settings};
use walking::{Places, element_at, part_at};

// Writes the records of an accepted table into a buffer that is long enough: 0 with the length. The table's refusal, or 16 at
// 0 where the buffer is too short; then no byte of it alters.
pub fn rewrite(table: &[u8], out: &mut [u8], chip: Chip) -> Result<usize, Refusal>
    ensures { Rewritten chip table.now out.old (told result) out.new }
{
    let settings = Settings {
        chip,
        rules: Rules::Ordinary,
    };
    let answer = reader::check(table, settings);
    let Ok(_) = answer else {
        return answer;
    };
    if out.len() < table.len() {
        return Err(Rule::NoRoom.at(0));
    }
    // No call of the writer refuses: the records are those of an accepted table, and there is room.
    let _ = writer::start(out, fields::description(table, chip), chip);
    for at in Places::of(table) {
        let e = element_at(table, at, chip);
        let _ = writer::append(out, e, part_at(table, at), chip);
    }
    Ok(table.len())
}
