//! A platform over files.

ghost use Rattle.std.specs.Prelude.{◌≡◌, None, Some, IfErr, MatchResult};
ghost use Rattle.mm_bytes.specs.Limits.{CountsFaults};
ghost use Rattle.mm_files.specs.UntoldDevices.{none_are, untold_standing};

use crate::cause::in_words;
use crate::counting::counted;
use crate::folder::Folder;
use crate::lock::Lock;
use crate::reason::Reason;
use mm_bytes::Memory;
use mm_digest::Digest;
use mm_platform::{Device, RawNv, Register, StepFault};
use std::os::unix::fs::FileExt;
use std::rt::Files;

/// Non-volatile memory of 209 bytes in the file `nv`, and a register of 32 bytes in the file
/// `register`, both of the current directory. They emulate devices that the host can't put back:
/// whoever may write these files can. No content is told. The first call locks the directory and
/// `nv`, and writes again and syncs what is gone on from; where another program holds a lock each
/// call fails. Both files stay open. A call on the memory fails where the name of `nv` leads to
/// another file then. Memory is read with the byte at 208, and the next reading call tells what was
/// read then.
#[derive(Drop)]
pub struct FilePlatform<'a, R: Files> {
    files: &'a R,
    folder: Folder<R::File>,
    steps: u64,
    cycles: u64,
    faults: u64,
    last: Option<Reason>,
}

impl<'a, R: Files> FilePlatform<'a, R>
where
    R::File: Lock + FileExt,
{
    /// The platform over these files. None is opened before the first call. An absent `nv` is made
    /// where it is written.
    pub fn new(files: &'a R) -> FilePlatform<'a, R>
        ensures steps { result.steps ≡ 0 }
        ensures cycles { result.cycles ≡ 0 }
        ensures faults { result.faults ≡ 0 }
        ensures reason { result.last ≡ None }
    {
        FilePlatform::over(files, true)
    }

    /// The platform over these files, of which `nv` is never made: a write of an absent one fails.
    pub fn existing(files: &'a R) -> FilePlatform<'a, R>
        ensures steps { result.steps ≡ 0 }
        ensures cycles { result.cycles ≡ 0 }
        ensures faults { result.faults ≡ 0 }
        ensures reason { result.last ≡ None }
    {
        FilePlatform::over(files, false)
    }

    // The platform over these files, which makes an absent `nv` or doesn't.
    fn over(files: &'a R, makes_nv: bool) -> FilePlatform<'a, R>
        ensures steps { result.steps ≡ 0 }
        ensures cycles { result.cycles ≡ 0 }
        ensures faults { result.faults ≡ 0 }
        ensures reason { result.last ≡ None }
    {
        FilePlatform {
            files,
            folder: Folder::new(makes_nv),
            steps: 0,
            cycles: 0,
            faults: 0,
            last: None,
        }
    }

    /// Why the last call that failed did. None where none has.
    pub fn last_reason(&self) -> Option<Reason>
        ensures { result ≡ self.now.last }
    {
        self.last
    }
}

// An outcome whose error is told as `Failed`, counted once, and kept as the last reason.
fn told<T>(
    faults: &mut u64,
    last: &mut Option<Reason>,
    outcome: Result<T, Reason>,
) -> Result<T, StepFault>
    ensures counts { CountsFaults faults.old faults.new result }
    ensures failed { IfErr result (λ fault. fault ≡ StepFault.Failed) }
    ensures keeps { MatchResult outcome
        (λ _. last.new ≡ last.old)
        (λ reason. last.new ≡ Some reason) }
{
    match counted(faults, last, outcome) {
        Ok(value) => Ok(value),
        Err(_) => Err(StepFault::Failed),
    }
}

impl<R: Files> Device for FilePlatform<'_, R>
where
    R::File: Lock + FileExt,
{
    ghost standing = { λ it. untold_standing it.steps it.cycles it.faults };
}

impl<R: Files> RawNv for FilePlatform<'_, R>
where
    R::File: Lock + FileExt,
{
    fn raw_read(&mut self, at: u16, into: &mut [u8]) -> Result<(), StepFault> {
        let outcome = self.folder.read_nv(self.files, at);
        told(&mut self.faults, &mut self.last, in_words(outcome))?;
        let start = usize::from(at);
        into.copy_from_slice(&self.folder.bytes[start..start + into.len()]);
        Ok(())
    }

    fn raw_write(&mut self, at: u16, bytes: &[u8]) -> Result<(), StepFault> {
        let outcome = self.folder.put_nv(self.files, at, bytes);
        told(&mut self.faults, &mut self.last, in_words(outcome))
    }

    fn raw_cycle(&mut self) -> Result<(), StepFault> {
        self.cycles = self.cycles.saturating_add(1);
        let outcome = self.folder.reset_register(self.files);
        told(&mut self.faults, &mut self.last, in_words(outcome))
    }

    ghost is_whole = { λ _ bytes told. none_are 209 bytes told };
}

impl<R: Files> Register for FilePlatform<'_, R>
where
    R::File: Lock + FileExt,
{
    fn reg_ready(&mut self) -> Result<(), Memory> {
        Ok(())
    }

    fn reg_read(&mut self) -> Result<Digest, StepFault> {
        self.steps = self.steps.saturating_add(1);
        let outcome = self.folder.register(self.files);
        told(&mut self.faults, &mut self.last, in_words(outcome))
    }

    fn reg_reset(&mut self) -> Result<(), StepFault> {
        self.steps = self.steps.saturating_add(1);
        let outcome = self.folder.reset_register(self.files);
        told(&mut self.faults, &mut self.last, in_words(outcome))
    }

    fn reg_extend(&mut self, value: &Digest) -> Result<(), StepFault> {
        self.steps = self.steps.saturating_add(1);
        let outcome = self.folder.extend_register(self.files, value);
        told(&mut self.faults, &mut self.last, in_words(outcome))
    }
}
