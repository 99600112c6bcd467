//! Bits with two writers, and inputs with one.

ghost use Rattle.std.specs.Prelude.{◌≡◌, ◌<◌, ◌^◌, ◌&&◌, ℕ, true, false, length, IfErr, OnOk, IfOk};
ghost use Rattle.std.specs.List.{list_any};
ghost use Rattle.rtl_ir.specs.declared.design.Port.{Port};
ghost use Rattle.rtl_pieces.specs.Bits.{line_in, writes};
ghost use Rattle.plan_types.specs.Drivers.{OneDriver, FreeInputs, bits_of_var, is_input};
ghost use Rattle.model_build.specs.Reaching.{reached};
ghost use Rattle.model_build.specs.Drivers.{DriverRefusal, origin_of as origin_in};

use crate::fault::BuildFault;
use crate::name::name_of_bit;
use crate::reach::reaches;
use rtl_ir::{Design, Port, Proc};
use rtl_pieces::{BitLine, BitRange, DriverFault, drivers, ranges_written};
use std::alloc::{AllocError, Global};
use vs_base::Origin;

/// Refuses a bit that two processes write. An input port that a process writes, which no design of elaboration has, is answered by
/// want of memory.
pub(crate) fn check_drivers(alloc: Global, design: &Design) -> Result<(), BuildFault>
    requires procs { length design.now.procs < 2 ^ 32 }
    requires vars { length design.now.vars < 2 ^ 32 }
    requires mems { length design.now.mems < 2 ^ 32 }
    ensures fine { OnOk result (OneDriver design.now) }
    ensures inputs { OnOk result (FreeInputs design.now) }
    ensures refused { IfErr result (DriverRefusal design.now) }
{
    check_single(alloc, design)?;
    match check_inputs(alloc, design) {
        Ok(()) => Ok(()),
        Err(error) => Err(BuildFault::NoMemory(error)),
    }
}

/// Tests that no process writes a bit of an input port.
fn check_inputs(alloc: Global, design: &Design) -> Result<(), AllocError>
    requires procs { length design.now.procs < 2 ^ 32 }
    ensures { OnOk result (FreeInputs design.now) }
{
    let line = BitLine::new(alloc, design)?;
    let count = design.procs.len();
    for number in 0..count {
        if writes_input(alloc, design, &line, number as u32)? {
            return Err(AllocError);
        }
    }
    Ok(())
}

/// Whether a process writes a bit of an input port.
fn writes_input(
    alloc: Global,
    design: &Design,
    line: &BitLine,
    proc: u32,
) -> Result<bool, AllocError>
    ensures { IfOk result (λ is. is ≡ false → (b : ℕ) → writes line.now design.now.procs proc b ≡ true → list_any (λ (port : Port). is_input line.now port b) design.now.ports ≡ false) }
{
    let ranges = ranges_written(alloc, design, line, proc)?;
    Ok(has_input(line, design.ports.as_slice(), ranges.as_slice()))
}

/// Whether ranges have a bit of an input port.
fn has_input(line: &BitLine, ports: &[Port], ranges: &[BitRange]) -> bool
    ensures { result ≡ list_any (λ (port : Port). port.input && reached (bits_of_var line.now port.var).from (bits_of_var line.now port.var).to ranges.now) ports.now }
{
    ports
        .iter()
        .any(|port| port.input && has_var(line, port.var, ranges))
}

/// Whether ranges have a bit of a variable.
fn has_var(line: &BitLine, var: u32, ranges: &[BitRange]) -> bool
    ensures { result ≡ reached (bits_of_var line.now var).from (bits_of_var line.now var).to ranges.now }
{
    let item = line.item(false, var);
    reaches(item.first, item.first + u128::from(item.width), ranges)
}

/// Refuses a bit that two processes write.
fn check_single(alloc: Global, design: &Design) -> Result<(), BuildFault>
    requires procs { length design.now.procs < 2 ^ 32 }
    requires vars { length design.now.vars < 2 ^ 32 }
    requires mems { length design.now.mems < 2 ^ 32 }
    ensures fine { OnOk result (OneDriver design.now) }
    ensures refused { IfErr result (DriverRefusal design.now) }
{
    match drivers(alloc, design) {
        Ok(()) => Ok(()),
        Err(DriverFault::NoMemory(error)) => Err(BuildFault::NoMemory(error)),
        Err(DriverFault::MultipleDrivers(bit, first, second)) => {
            let name = name_of_bit(alloc, design, bit)?;
            let procs = design.procs.as_slice();
            Err(BuildFault::MultipleDrivers(
                name,
                origin_of(procs, first),
                origin_of(procs, second),
            ))
        }
    }
}

/// The place of a process; one that is no place where there is no such process.
pub(crate) fn origin_of(procs: &[Proc], number: u32) -> Origin
    ensures { result ≡ origin_in procs.now number }
{
    match procs.get(number as usize) {
        Some(process) => process.at,
        None => NOWHERE,
    }
}

const NOWHERE: Origin = Origin {
    file: 0,
    line: 0,
    col: 0,
};
