//! The texts of outputs, input derivations and environment entries.

ghost use Rattle.std.specs.Prelude.{◌≡◌, ℕ, List};
ghost use Rattle.nd_aterm.specs.Derivations.{output, input_drv, env_entry};
ghost use Rattle.nd_aterm.specs.DerivationsOnce.{output_once, output_opens, input_drv_once, input_drv_opens, env_entry_once, env_entry_opens};

use crate::fault::AtermError;
use crate::part::{Part, Written, expect, put_field, two_fields};
use crate::records::{EnvEntry, InputDrv, Output};
use crate::views::{EnvEntryView, NeededDrvView, OutputView};
use std::alloc::{AllocError, Global};

impl<'t> Part<'t> for OutputView<'t> {
    ghost text = { output };

    // Most derivations have one output.
    const ROOM: usize = 1;

    #[tactic(auto, using(crate::specs::SpellingOnce::string_once), unfolding(crate::specs::Derivations::output))]
    fn read(alloc: Global, bytes: &'t [u8]) -> Result<(Self, &'t [u8]), AtermError> {
        let rest = expect(bytes, b'(')?;
        let (name, path, rest) = two_fields(alloc, rest, b',')?;
        let (hash_algo, hash, rest) = two_fields(alloc, rest, b')')?;
        let output = OutputView {
            name,
            path,
            hash_algo,
            hash,
        };
        Ok((output, rest))
    }

    ghost once = { output_once };

    ghost opens = { output_opens };
}

impl Written for Output {
    ghost text = { output };

    #[tactic(auto, unfolding(crate::specs::Derivations::output))]
    fn write(&self, out: &mut Vec<u8>) -> Result<(), AllocError> {
        out.push(b'(')?;
        put_field(&self.name, b',', out)?;
        put_field(&self.path, b',', out)?;
        put_field(&self.hash_algo, b',', out)?;
        put_field(&self.hash, b')', out)?;
        Ok(())
    }
}

impl<'t> Part<'t> for NeededDrvView<'t> {
    ghost text = { input_drv };

    const ROOM: usize = 8;

    #[tactic(auto, unfolding(crate::specs::Derivations::input_drv))]
    fn read(alloc: Global, bytes: &'t [u8]) -> Result<(Self, &'t [u8]), AtermError> {
        let rest = expect(bytes, b'(')?;
        let (path, outputs, rest) = two_fields(alloc, rest, b')')?;
        Ok((NeededDrvView { path, outputs }, rest))
    }

    ghost once = { input_drv_once };

    ghost opens = { input_drv_opens };
}

impl Written for InputDrv {
    ghost text = { input_drv };

    #[tactic(auto, unfolding(crate::specs::Derivations::input_drv))]
    fn write(&self, out: &mut Vec<u8>) -> Result<(), AllocError> {
        out.push(b'(')?;
        put_field(&self.path, b',', out)?;
        put_field(&self.outputs, b')', out)?;
        Ok(())
    }
}

impl<'t> Part<'t> for EnvEntryView<'t> {
    ghost text = { env_entry };

    // Few derivations have fewer than ten variables.
    const ROOM: usize = 16;

    #[tactic(auto, unfolding(crate::specs::Derivations::env_entry))]
    fn read(alloc: Global, bytes: &'t [u8]) -> Result<(Self, &'t [u8]), AtermError> {
        let rest = expect(bytes, b'(')?;
        let (key, value, rest) = two_fields(alloc, rest, b')')?;
        Ok((EnvEntryView { key, value }, rest))
    }

    ghost once = { env_entry_once };

    ghost opens = { env_entry_opens };
}

impl Written for EnvEntry {
    ghost text = { env_entry };

    #[tactic(auto, unfolding(crate::specs::Derivations::env_entry))]
    fn write(&self, out: &mut Vec<u8>) -> Result<(), AllocError> {
        out.push(b'(')?;
        put_field(&self.key, b',', out)?;
        put_field(&self.value, b')', out)?;
        Ok(())
    }
}
