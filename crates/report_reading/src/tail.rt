//! The last lines.

ghost use Rattle.std.specs.Prelude.{◌≡◌, [], List, ℕ, None, MatchResult, length, ◌≤◌};
ghost use Rattle.step_counts.specs.declared.settings.Settings.{Settings};
ghost use Rattle.step_counts.specs.StepCounts.{step_bound};
ghost use Rattle.report_told.specs.Rules.{IsHead, IsSettingsOf};
ghost use Rattle.report_told.specs.Verdicts.{IsBadLine};
ghost use Rattle.report_lines.specs.Lines.{session_at};
ghost use Rattle.report_lines.proofs.Machine.{Body, body};
ghost use Rattle.report_reading.specs.Steps.{At, NoEntry, TailRead};

use report_lines::{count_line, input_line, leaves_line, steps_line};

/// Reads the last four lines, behind which nothing stands; so many lines stand before them. `Err` is the bad line.
pub(crate) fn tail(bytes: &[u8], lines: u32, bound: u64) -> Result<(), u32>
    ensures { (text : List ℕ) (b : Body) → IsHead b.head → At text (body b) bytes.now lines →
        session_at bytes.now ≡ None → (b.pairs ≡ [] → NoEntry b bytes.now) →
        ((s : Settings) → IsSettingsOf b.head s → bound ≡ step_bound s) → length text ≤ 4294967295 →
        MatchResult result (λ _. TailRead text b bound) (λ line. IsBadLine text line) }
{
    let Some((_, rest)) = leaves_line(bytes) else {
        return Err(lines.saturating_add(1));
    };
    let Some((_, rest)) = input_line(rest) else {
        return Err(lines.saturating_add(2));
    };
    let Some((_, rest)) = count_line(rest) else {
        return Err(lines.saturating_add(3));
    };
    let Some((steps, rest)) = steps_line(rest) else {
        return Err(lines.saturating_add(4));
    };
    if steps.bound != bound {
        return Err(lines.saturating_add(4));
    }
    if !rest.is_empty() {
        return Err(lines.saturating_add(5));
    }
    Ok(())
}
