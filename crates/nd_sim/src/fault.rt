//! Why a simulation ends before its report is out.

/// Why a simulation gave up. The lines that were written before stay.
#[derive(Clone, Copy, Debug, PartialEq, Eq)]
pub enum SimFault {
    /// 1: the device refused a write, and is marked.
    Write,
    /// 2: an allocation was refused.
    Memory,
}
