// A study that is searched and finished, and a new one of the map that it gives back.
ghost use Rattle.std.specs.Prelude.{◌≡◌};
ghost use Rattle.worked.specs.Anew.{Anew, first_search};

use maps::Jobs;
use points::Entry;
use study::{Refusal, Report, Study};

// Searches a panel, and then begins anew with what is left of the allowance.
pub fn search_and_study_anew(
    panel: Jobs,
    allowance: u32,
    strip: &mut [u32],
    record: &mut [Entry],
) -> (Result<Report, Refusal>, Study<Jobs>)
    ensures reply { result.0 ≡ (first_search panel allowance strip.old «record».old).reply }
    ensures study { Anew panel allowance strip.old «record».old result.1 }
{
    let mut study = Study::new(panel, allowance);
    let reply = study.search(strip, record);
    let (panel, left) = study.finish();
    (reply, Study::new(panel, left))
}
