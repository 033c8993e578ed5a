// The verdict in words.
ghost use Rattle.std.specs.Prelude.{◌≡◌, IfOk, string_bytes};
ghost use Rattle.notice.specs.Pages.{refused_line, verdict_lines};

use admission::Verdict;
use sheet::Diagnosis;
use std::alloc::{AllocError, Global};

fn refused_line(heap: Global, told: Diagnosis) -> Result<String, AllocError>
    ensures bytes { IfOk result (λ line. string_bytes line ≡ refused_line told) }
{
    format!(in heap; "refused {told}\n")
}

// The first line, and the ground of a refusal.
pub(crate) fn verdict_lines(heap: Global, verdict: Verdict) -> Result<String, AllocError>
    ensures bytes { IfOk result (λ lines. string_bytes lines ≡ verdict_lines verdict) }
{
    match verdict {
        Ok((load, cycle)) => format!(in heap; "admitted {load} of {cycle}\n"),
        Err(fault) => {
            let mut lines = refused_line(heap, fault.diagnosis())?;
            writeln!(lines, "{fault}")?;
            Ok(lines)
        }
    }
}
