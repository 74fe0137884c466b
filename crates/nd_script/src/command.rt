//! The calls that a script asks for.

use nd_closure::Refs;
use nd_path::PathSet;

/// One line of a script. Derivations are numbered from 0 in the order of the bundle, machine 0 is the
/// local one and machine m the m-th of the builders list.
#[derive(Debug, Drop)]
pub enum Command {
    /// `start D`: the lease of the derivation starts, once what its machine lacks was copied.
    Start { drv: u32 },
    /// `startwith D PATH ..`: it starts, once these paths were copied.
    StartWith { drv: u32, paths: PathSet },
    /// `built D`: its build ends with its outputs, which refer to nothing.
    Built { drv: u32 },
    /// `built D o PATH .. o ..`: its build ends with its outputs, which have these references.
    BuiltWith { drv: u32, refs: Refs },
    /// `fail D C`: its build ends with this status.
    Fail { drv: u32, status: u8 },
    /// `lose D`: the transport is lost during its build.
    Lose { drv: u32 },
    /// `down D`: its lease is given back before the start.
    Down { drv: u32 },
    /// `stop`: no further lease is made.
    Stop,
    /// `drain M`: the machine gets no more leases.
    Drain { machine: u32 },
    /// `enable M`: it gets leases again.
    Enable { machine: u32 },
    /// `ask D`: the hook's reply about the derivation is wanted.
    Ask { drv: u32 },
}
