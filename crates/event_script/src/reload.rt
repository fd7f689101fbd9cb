//! Configurations that a line tells by their text.
ghost use Rattle.std.specs.Prelude.{◌≡◌, Some, None, IfOk, IfErr};
ghost use Rattle.event_script.specs.Faults.{fault_of_text};
ghost use Rattle.event_script.specs.Script.{config_told};
ghost use Rattle.event_script.specs.declared.fault.ScriptFault.TheVariants.{Script};

use crate::fault::ScriptFault;
use catalog::{Config, ConfigFault};
use std::alloc::Global;

/// What a line is refused for, by what the text in it is refused for.
fn fault_of_text(fault: ConfigFault) -> ScriptFault
    ensures { result ≡ fault_of_text fault }
{
    match fault {
        ConfigFault::OutOfMemory => ScriptFault::OutOfMemory,
        _ => ScriptFault::Script,
    }
}

/// The configuration that a text is. It fails with Script exactly where the text is none, memory aside.
pub(crate) fn told_config(alloc: Global, text: &[u8]) -> Result<Config, ScriptFault>
    ensures ok { IfOk result (λ config. config_told text.now ≡ Some config) }
    ensures script { IfErr result (λ fault. fault ≡ Script → config_told text.now ≡ None) }
{
    match Config::read(alloc, text) {
        Ok(config) => Ok(config),
        Err(fault) => Err(fault_of_text(fault)),
    }
}
