use super::*;
use mm_bytes::Bytes;
use mm_listing::Listed;
use mm_module::Module;
use std::test::Fail;

/// Requests, and what is said of each.
const STEPS: &str = "\
read => 0
mark => 1
mark => 2
marks => 2
read => 2
";

#[test]
fn marks_are_counted(rt: HostRuntime) -> Result<(), Fail> {
    let alloc = rt.alloc();
    let mut state = Tally.first_state(alloc)?;
    for line in STEPS.lines() {
        let (request, said) = line.split_once(" => ").ok_or("no arrow")?;
        assert!(rt; Tally.state_is_spelled(state.as_slice()));
        let stepped = Tally.step(alloc, state.as_slice(), request.as_bytes())?;
        assert_eq!(rt; stepped.output.as_slice(), said.as_bytes());
        state = stepped.state;
    }
    Ok(())
}

#[test]
fn a_tally_is_listed(rt: HostRuntime) -> Result<(), Fail> {
    let mut text = Bytes::new(rt.alloc());
    Tally.put_name(&mut text)?;
    Tally.put_request(&mut text, 4)?;
    Tally.put_request(&mut text, 5)?;
    assert_eq!(rt; text.as_slice(), b"tallyreadmark".as_slice());
    assert!(rt; Tally.is_named(b"tally"));
    assert!(rt; !Tally.is_named(b"tallies"));
    Ok(())
}
