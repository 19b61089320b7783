//! The lines of the verdicts.

ghost use Rattle.std.specs.Prelude.{◌≡◌, ◌++◌, ◌∷◌, [], codes, IfOk, OnOk};
ghost use Rattle.std.specs.Fmt.{decimal};
ghost use Rattle.mm_check.specs.Verdicts.{agreement_text, premise_text, verdicts_text};

use crate::verdicts::{Agreement, Premise, Verdicts};
use mm_bytes::{Bytes, Memory, put_numbered};
use std::alloc::Global;

fn put_shared(into: &mut Bytes, first: u32, second: u32) -> Result<(), Memory>
    ensures { OnOk result
        (into.new ≡ into.old ++ codes "shared " ++ decimal first ++ 32 ∷ [] ++ decimal second) }
{
    put_numbered(into, b"shared ", u64::from(first))?;
    put_numbered(into, b" ", u64::from(second))
}

fn put_premise(into: &mut Bytes, premise: &Premise) -> Result<(), Memory>
    ensures { OnOk result (into.new ≡ into.old ++ premise_text premise.now) }
{
    match premise {
        Premise::Held => into.append(b"held"),
        Premise::Shared { first, second } => put_shared(into, *first, *second),
        Premise::Zero { message } => put_numbered(into, b"zero ", u64::from(*message)),
        Premise::Secured { event } => put_numbered(into, b"secured ", u64::from(*event)),
        Premise::Forged { event } => put_numbered(into, b"forged ", u64::from(*event)),
    }
}

fn put_agreement(into: &mut Bytes, agreement: &Agreement) -> Result<(), Memory>
    ensures { OnOk result (into.new ≡ into.old ++ agreement_text agreement.now) }
{
    match agreement {
        Agreement::Agree => into.append(b"agree"),
        Agreement::Differ { line } => put_numbered(into, b"differ ", u64::from(*line)),
    }
}

fn put_verdicts(into: &mut Bytes, it: &Verdicts) -> Result<(), Memory>
    ensures { OnOk result (into.new ≡ into.old ++ verdicts_text it.now) }
{
    put_premise(into, &it.premise)?;
    into.append(b"\n")?;
    put_agreement(into, &it.agreement)?;
    into.append(b"\n")
}

/// The two lines of the verdicts.
pub(crate) fn verdicts_text(alloc: Global, it: &Verdicts) -> Result<Bytes, Memory>
    ensures { IfOk result (λ text. text ≡ verdicts_text it.now) }
{
    let mut text = Bytes::new(alloc);
    put_verdicts(&mut text, it)?;
    Ok(text)
}
