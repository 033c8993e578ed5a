// The verdict on a sheet as a page to hang up beside the pairings.
#![tactic(auto)]

ghost use Rattle.std.specs.Prelude.{◌≡◌, is_ok, IfOk};
ghost use Rattle.admission.specs.Verdict.{admit_sheet};
ghost use Rattle.notice.specs.Pages.{Short, known_cycle, page_of};

use admission::{AdmissionFault, Table, Verdict};
use std::alloc::{AllocError, Global};

mod line;
mod records;
mod verdict;

use records::with_record_lines;
use verdict::verdict_lines;

// The text of the page, and the verdict that it tells.
#[derive(Drop)]
pub struct Notice {
    pub text: Vec<u8>,
    pub verdict: Verdict,
}

// The cycle, where the admission came to one.
fn known_cycle(verdict: Verdict) -> Option<u64>
    ensures value { result ≡ known_cycle verdict }
{
    match verdict {
        Ok((_, cycle)) | Err(AdmissionFault::Load { cycle, .. }) => Some(cycle),
        Err(_) => None,
    }
}

impl Notice {
    // The notice for a sheet, admitted or not.
    #[tactic(auto, using(crate::proofs::Known::known_short))]
    pub fn new(heap: Global, sheet: &[u8]) -> Result<Notice, AllocError>
        ensures text { IfOk result (λ notice. notice.text.items ≡ page_of sheet.now) }
        ensures verdict { IfOk result (λ notice. notice.verdict ≡ admit_sheet sheet.now) }
        ensures short { IfOk result (λ notice. Short (known_cycle notice.verdict)) }
    {
        let mut table = Table::new();
        let verdict = admission::admit(sheet, &mut table);
        let text = verdict_lines(heap, verdict)?.into_bytes();
        let text = with_record_lines(heap, text, sheet, known_cycle(verdict))?;
        Ok(Notice { text, verdict })
    }

    // Whether the sheet is admitted.
    pub fn is_admitted(&self) -> bool
        ensures value { result ≡ is_ok self.now.verdict }
    {
        self.verdict.is_ok()
    }
}
