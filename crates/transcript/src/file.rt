// A whole file, from its bytes to the text that is printed of it.
ghost use Rattle.std.specs.Prelude.{◌≡◌, IfOk, string_bytes};
ghost use Rattle.sheets.specs.CallsBody.{planned_of};
ghost use Rattle.sheets.specs.Sheets.{meant_by, read_file};
ghost use Rattle.transcript.specs.Lawfully.{FileRun, PlanRun, SheetRun};
ghost use Rattle.transcript.specs.Printed.{bad_line, printed, sheet_text};

use crate::run::study_map;
use crate::values::Printed;
use chains::Chain;
use maps::{Map, Memo};
use sheets::{Fault, Plan, Sheet, Unread, parse};
use std::alloc::{AllocError, Global};

// Runs a plan on a newly made study of a memo over its map.
fn run_plan<V: Printed, M: Map + Chain<Value = V> + Drop>(
    alloc: Global,
    plan: Plan<M, V>,
) -> Result<String, AllocError>
    ensures { IfOk result (λ text. PlanRun M.Chain.order M.Map.rules V.Printed.bytes M.Chain.KIND V.Printed.nothing plan.map (planned_of plan) (string_bytes text)) }
{
    let Plan { map, allow, calls } = plan;
    study_map(alloc, Memo::new(map), allow, &calls)
}

// What is told of a bad file.
fn bad_file(alloc: Global, fault: Fault, line: usize) -> Result<String, AllocError>
    ensures { IfOk result (λ text. string_bytes text ≡ bad_line (fault, line)) }
{
    let number = fault.number();
    format!(in alloc; "bad {number} {line}\n")
}

// Runs a sheet.
fn run_sheet(alloc: Global, sheet: Sheet) -> Result<String, AllocError>
    ensures exact { IfOk result (λ text. string_bytes text ≡ sheet_text (meant_by sheet)) }
    ensures lawful { IfOk result (λ text. SheetRun (meant_by sheet) (string_bytes text)) }
{
    match sheet {
        Sheet::Jobs(plan) => run_plan(alloc, plan),
        Sheet::Rows(plan) => run_plan(alloc, plan),
    }
}

// Runs a sheet file: the text that is printed of it, unless memory is wanting. A bad file is an answer, so it has a text too.
pub fn run_file(alloc: Global, file: &[u8]) -> Result<String, AllocError>
    ensures exact { IfOk result (λ text. string_bytes text ≡ printed file.now) }
    ensures lawful { IfOk result (λ text. FileRun (read_file file.now) (string_bytes text)) }
{
    match parse(alloc, file) {
        Ok(sheet) => run_sheet(alloc, sheet),
        Err(Unread::Bad { fault, line }) => bad_file(alloc, fault, line),
        Err(Unread::Memory) => Err(AllocError),
    }
}
