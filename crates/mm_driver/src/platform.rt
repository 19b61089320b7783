//! A platform over a driver.

ghost use Rattle.std.specs.Prelude.{◌≡◌, IfErr};
ghost use Rattle.mm_bytes.specs.Limits.{CountsFaults};
ghost use Rattle.mm_files.specs.UntoldDevices.{none_are, untold_standing};

use crate::driver::Driver;
use mm_bytes::{Failed, Memory};
use mm_digest::Digest;
use mm_platform::{Device, RawNv, Register, StepFault};

/// Memory whose writes may tear, and a register, behind a driver. Contracts see its counts alone:
/// the steps of the register, the losses of power and the faults.
#[derive(Drop)]
pub struct DrivenPlatform<D> {
    driver: D,
    steps: u64,
    cycles: u64,
    faults: u64,
}

impl<D: Driver> DrivenPlatform<D> {
    /// The platform over this driver, with no step called yet.
    pub fn new(driver: D) -> DrivenPlatform<D>
        ensures steps { result.steps ≡ 0 }
        ensures cycles { result.cycles ≡ 0 }
        ensures faults { result.faults ≡ 0 }
    {
        DrivenPlatform {
            driver,
            steps: 0,
            cycles: 0,
            faults: 0,
        }
    }
}

// What the driver answered, a failure told as `Failed` and counted once.
fn told<T>(faults: &mut u64, answer: Result<T, Failed>) -> Result<T, StepFault>
    ensures counts { CountsFaults faults.old faults.new result }
    ensures failed { IfErr result (λ fault. fault ≡ StepFault.Failed) }
{
    match answer {
        Ok(value) => Ok(value),
        Err(_) => {
            *faults = faults.saturating_add(1);
            Err(StepFault::Failed)
        }
    }
}

impl<D: Driver> Device for DrivenPlatform<D> {
    ghost standing = { λ it. untold_standing it.steps it.cycles it.faults };
}

impl<D: Driver> RawNv for DrivenPlatform<D> {
    fn raw_read(&mut self, at: u16, into: &mut [u8]) -> Result<(), StepFault> {
        let mut bytes = [0; 209];
        let answer = self.driver.read_memory(at, &mut bytes[..into.len()]);
        told(&mut self.faults, answer)?;
        into.copy_from_slice(&bytes[..into.len()]);
        Ok(())
    }

    fn raw_write(&mut self, at: u16, bytes: &[u8]) -> Result<(), StepFault> {
        let answer = self.driver.write_memory(at, bytes);
        told(&mut self.faults, answer)
    }

    fn raw_cycle(&mut self) -> Result<(), StepFault> {
        self.cycles = self.cycles.saturating_add(1);
        let answer = self.driver.reset_register();
        told(&mut self.faults, answer)
    }

    ghost is_whole = { λ _ bytes told. none_are 209 bytes told };
}

impl<D: Driver> Register for DrivenPlatform<D> {
    fn reg_ready(&mut self) -> Result<(), Memory> {
        Ok(())
    }

    fn reg_read(&mut self) -> Result<Digest, StepFault> {
        self.steps = self.steps.saturating_add(1);
        let answer = self.driver.read_register();
        let bytes = told(&mut self.faults, answer)?;
        Ok(Digest { bytes })
    }

    fn reg_reset(&mut self) -> Result<(), StepFault> {
        self.steps = self.steps.saturating_add(1);
        let answer = self.driver.reset_register();
        told(&mut self.faults, answer)
    }

    fn reg_extend(&mut self, value: &Digest) -> Result<(), StepFault> {
        self.steps = self.steps.saturating_add(1);
        let answer = self.driver.extend_register(&value.bytes);
        told(&mut self.faults, answer)
    }
}
