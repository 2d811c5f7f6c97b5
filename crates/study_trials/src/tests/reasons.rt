// How refusals are printed.
use points::Fault;
use std::test::Fail;
use study::Refusal;

#[test]
fn a_refusal_tells_its_reason(rt: HostRuntime) -> Result<(), Fail> {
    for (refusal, reason) in [
        (Refusal::Strip, "the strip is too short"),
        (
            Refusal::Outside { coordinate: 2 },
            "the point to raise or lower lies outside the box in coordinate 2",
        ),
        (
            Refusal::Faulted {
                fault: Fault { cause: 9, depth: 1 },
                count: 3,
            },
            "question 3 met a fault of the map: cause 9, depth 1",
        ),
    ] {
        let text = format!(in rt.alloc(); "{refusal}")?;
        assert_eq!(rt; text.as_str(), reason);
    }
    Ok(())
}
