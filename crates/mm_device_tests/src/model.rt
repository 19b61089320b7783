//! Histories and verdicts, and a machine.

use mm_bytes::{Memory, read_decimal};
use mm_digest::{Digest, Variant};
use mm_model::Verdict;
use mm_module::{Batch, Counter};
use mm_reference::{Machine, Symbolic};
use std::alloc::Global;
use std::test::Fail;

const FOREIGN: Digest = Digest { bytes: [255; 32] };

/// Eleven stories, and a batch that is repeated whole: each a variant, and then moves, and the
/// verdicts that are given there on a position and a request.
const STORIES: &str = "\
basic
0 fresh add 5
commit add 5
0 stale add 7

basic
commit add 5
0 again add 5
1 fresh add 5
commit add 5
2 fresh read

basic
commit add 1
1 fresh add 1
commit add 1
0 stale add 1
1 again add 1

opt
0 fresh add 1
reset
commit add 1
1 fresh add 1
commit add 1
close
power
2 fresh read
reset
commit read

opt
reset
commit add 1
commit add 1
power
2 lost read

opt
reset
commit add 1
commit add 1
close
power
1 again add 1
0 stale add 1
2 fresh add 1

opt
reset
commit add 1
extend
1 stale add 1
power
1 lost add 1

opt
extend
reset
commit add 1
1 fresh add 1
commit add 1

opt
reset
commit add 1
extend
1 stale add 1
close
1 stale add 1

opt
reset
commit add 1
close
power
1 fresh read

opt
reset
batch add 1\tadd 1
2 fresh read
1 stale add 1
0 stale add 1

opt
batch add 1\tadd 1
0 again add 1\tadd 1
batch add 5
2 again add 5
";

fn variant_of(word: &str) -> Variant {
    match word {
        "basic" => Variant::Basic,
        _ => Variant::Opt,
    }
}

fn name_of(verdict: Verdict) -> &'static str {
    match verdict {
        Verdict::Fresh => "fresh",
        Verdict::Again => "again",
        Verdict::Stale => "stale",
        Verdict::Lost => "lost",
    }
}

fn batch_of(text: &str) -> Batch<'_> {
    if text.contains('\t') {
        Batch::Many(text.as_bytes())
    } else {
        Batch::One(text.as_bytes())
    }
}

// Whether this verdict is given on a position and a request.
fn is_judged(symbolic: &Symbolic, position: &str, said: &str) -> bool {
    let (verdict, request) = said.split_once(' ').unwrap_or((said, ""));
    match read_decimal(position.as_bytes()) {
        Some(position) => name_of(symbolic.judge(position, batch_of(request))) == verdict,
        None => false,
    }
}

// Empties the register, where no segment is open.
fn reset(symbolic: &mut Symbolic) -> bool {
    if symbolic.is_open() {
        return false;
    }
    symbolic.reset();
    true
}

// Closes the segment, where one is open.
fn close(symbolic: &mut Symbolic) -> Result<bool, Memory> {
    if !symbolic.is_open() {
        return Ok(false);
    }
    symbolic.close()?;
    Ok(true)
}

// Makes a move, or says whether the verdict is the one that is told.
fn acts(symbolic: &mut Symbolic, line: &str) -> Result<bool, Memory> {
    let (word, text) = line.split_once(' ').unwrap_or((line, ""));
    match word {
        "reset" => return Ok(reset(symbolic)),
        "close" => return close(symbolic),
        "commit" => symbolic.commit(Batch::One(text.as_bytes()))?,
        "batch" => symbolic.commit(Batch::Many(text.as_bytes()))?,
        "extend" => symbolic.extend(&FOREIGN)?,
        "power" => symbolic.power(),
        _ => return Ok(is_judged(symbolic, word, text)),
    }
    Ok(true)
}

fn plays(symbolic: &mut Symbolic, moves: &str) -> Result<bool, Memory> {
    for line in moves.lines() {
        if !acts(symbolic, line)? {
            return Ok(false);
        }
    }
    Ok(true)
}

fn is_told(alloc: Global, story: &str) -> Result<bool, Memory> {
    let (variant, moves) = story.split_once('\n').unwrap_or((story, ""));
    let mut symbolic = Symbolic::new(alloc, variant_of(variant));
    plays(&mut symbolic, moves)
}

#[test]
fn histories_are_judged(rt: HostRuntime) -> Result<(), Fail> {
    for story in STORIES.split("\n\n") {
        assert!(rt; is_told(rt.alloc(), story)?, "{story}");
    }
    Ok(())
}

fn accepts(machine: &mut Machine<Counter>, request: &[u8], said: &[u8]) -> Result<bool, Memory> {
    if !mm_module::is_line(request) {
        return Ok(false);
    }
    let output = machine.accept(request)?;
    Ok(output.as_slice() == said && machine.last_output() == Some(said))
}

fn accepts_two(machine: &mut Machine<Counter>) -> Result<bool, Memory> {
    let is_new = machine.last_output().is_none();
    let first = accepts(machine, b"add 5", b"5")?;
    let second = accepts(machine, b"add 7", b"12")?;
    Ok(is_new && first && second && machine.len() == 2)
}

fn is_run(alloc: Global) -> Result<bool, Memory> {
    let mut machine = Machine::new(alloc, Counter)?;
    accepts_two(&mut machine)
}

#[test]
fn requests_run_one_after_another(rt: HostRuntime) -> Result<(), Fail> {
    assert!(rt; is_run(rt.alloc())?);
    Ok(())
}
