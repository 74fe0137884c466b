//! The parts that a derivation is made of.

use nd_bytes::{ByteString, Items};

/// An output of a derivation: what the build makes.
#[derive(Debug, Drop)]
pub struct Output {
    /// The output's name, as `out`.
    pub name: ByteString,
    /// The store path that the output gets.
    pub path: ByteString,
    /// Of a fixed output the method and algorithm of its hash, and else empty.
    pub hash_algo: ByteString,
    /// Of a fixed output its hash, and else empty.
    pub hash: ByteString,
}

/// A derivation that this one needs, and which of its outputs.
#[derive(Debug, Drop)]
pub struct InputDrv {
    /// The store path of the other derivation.
    pub path: ByteString,
    /// The names of the outputs that are needed.
    pub outputs: Items<ByteString>,
}

/// A variable of the builder's environment.
#[derive(Debug, Drop)]
pub struct EnvEntry {
    /// The variable's name.
    pub key: ByteString,
    /// The variable's value.
    pub value: ByteString,
}

/// What a derivation is made of, its lists in any order.
#[derive(Debug, Drop)]
pub struct Parts {
    /// What the build makes.
    pub outputs: Items<Output>,
    /// The derivations that must be built first.
    pub input_drvs: Items<InputDrv>,
    /// The store paths that are sources.
    pub input_srcs: Items<ByteString>,
    /// The system to build on, as `x86_64-linux`.
    pub platform: ByteString,
    /// The program that builds.
    pub builder: ByteString,
    /// The program's arguments.
    pub args: Items<ByteString>,
    /// The builder's environment.
    pub env: Items<EnvEntry>,
}

/// What is selected of the parts of a derivation: all but the arguments, and of the environment the
/// variables that are asked for. It serves contracts alone: no call takes or answers one.
#[derive(Debug, Drop)]
pub struct SelectedParts {
    /// What the build makes.
    pub outputs: Items<Output>,
    /// The derivations that must be built first.
    pub input_drvs: Items<InputDrv>,
    /// The store paths that are sources.
    pub input_srcs: Items<ByteString>,
    /// The system to build on, as `x86_64-linux`.
    pub platform: ByteString,
    /// The program that builds.
    pub builder: ByteString,
    /// The variables of the builder's environment that are asked for, in their order there.
    pub env: Items<EnvEntry>,
}
