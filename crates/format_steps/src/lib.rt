// The file's records, one by one: the settings, and one more record of a run, or its fault.
#![tactic(auto)]

ghost use Rattle.std.specs.Prelude.{◌≤◌, length};
ghost use Rattle.format_records.specs.Limits.{max_records};
ghost use Rattle.format_steps.specs.Promises.{SettingsRightSays, StepAtSays};

use format_records::{Run, head_number, refused};
use turn::{Reason, Refusal};

// Kind 3 first, 9 bytes, and a direction of 0 or 1.
pub fn settings_right(s: &[u8]) -> bool
    ensures { SettingsRightSays s.now result }
{
    if s.len() < 15 {
        return false;
    }
    (format_numbers::u32_at(s, 0) == 9) & ((format_numbers::u16_at(s, 4) == 3) & (s[6] <= 1))
}

// What stands at a run's end: one record more, something else, or a record of the kind that is at fault.
pub fn step_at(s: &[u8], kind: u32, r: Run) -> Result<Option<Run>, Refusal>
    requires { (r.at ≤ length s.now) × (r.size ≤ r.at) × (r.count ≤ max_records) }
    ensures { StepAtSays kind s.now r result }
{
    let at = r.at;
    if s.len() - at < 6 {
        return Ok(None);
    }
    if format_numbers::u16_at(s, at + 4) != kind {
        return Ok(None);
    }
    let len = format_numbers::u32_at(s, at) as usize;
    if let Some(reason) = head_number(kind, r.count, r.size, len) {
        return Err(Refusal {
            reason,
            place: refused(reason.number(), at).place,
        });
    }
    let body = at + 6;
    if s.len() - body < len {
        return Err(Refusal {
            reason: Reason::WrongFile,
            place: at,
        });
    }
    Ok(Some(Run {
        at: body + len,
        count: r.count + 1,
        size: r.size + len,
    }))
}
