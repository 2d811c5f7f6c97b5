// settle: a study of one panel's job sheet, from its first call to its last.
#![tactic(auto)]

use chains::Chain;
use maps::{Job, Jobs, Memo};
use points::Entry;
use std::alloc::Global;
use study::{Details, Refusal, Report, Study};

// The panel, made as a caller of the library makes one: in ticks of 50 microseconds, a job of 2 ticks every 10, and below it one of 3 every 20 that holds the lock for 1.
fn panel(alloc: Global) -> anyhow::Result<Jobs> {
    let first = Job::new(2, 10, 10, 0, '-')?;
    let second = Job::new(3, 20, 20, 1, 'h')?;
    let jobs = vec![in alloc; first, second]?;
    Ok(Jobs::new(50, jobs)?)
}

// One line for a reply: what was found, or why the call was refused.
fn tell(
    rt: &HostRuntime,
    done: &str,
    reply: Result<Report, Refusal>,
    strip: &[u32; 32],
) -> anyhow::Result<()> {
    let (a, b) = (strip[0], strip[1]);
    match reply {
        Ok(Report::Answered { .. }) => println!(rt; "{done} {a} {b}")?,
        Ok(Report::Settled { count }) => println!(rt; "settled {count} {a} {b}")?,
        Ok(Report::Pair { count, coordinate }) => println!(rt; "pair {count} {coordinate}")?,
        Err(refusal) => {
            let Details {
                number,
                a,
                b,
                count,
            } = refusal.details();
            println!(rt; "refused {number} {a} {b} {count}")?
        }
    }
    Ok(())
}

fn main(rt: HostRuntime) -> anyhow::Result<()> {
    let map = Memo::new(panel(rt.alloc())?);
    let kind = Memo::<Jobs>::kind_letter();
    println!(rt; "kind {kind}")?;
    let mut study = Study::new(map, 20);
    let mut strip = [0; 32];
    let mut record = [Entry::default(); 64];
    let raised = study.raise(&[100, 100], &mut strip);
    tell(&rt, "raised", raised, &strip)?;
    let lowered = study.lower(&[150, 200], &mut strip);
    tell(&rt, "lowered", lowered, &strip)?;
    let asked = study.ask(&[120, 100], &mut strip);
    tell(&rt, "answer", asked, &strip)?;
    let found = study.search(&mut strip, &mut record);
    tell(&rt, "settled", found, &strip)?;
    let (_, left) = study.finish();
    println!(rt; "left {left}")?;
    Ok(())
}
