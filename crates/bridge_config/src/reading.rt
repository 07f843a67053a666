//! The configuration of a file, or its first fault.
ghost use Rattle.std.specs.Prelude.{◌≡◌, ◌⊎◌, IfOk, IfErr};
ghost use Rattle.toml.specs.View.{table_view};
ghost use Rattle.bridge_config.specs.declared.fault.ConfigFault.TheVariants.{Memory as WantOfMemory};
ghost use Rattle.bridge_config.specs.Configurations.{IsDocument};
ghost use Rattle.bridge_config.specs.ConfigFaults.{IsConfiguration, HasConfigFault, Checks, config_fault};
ghost use Rattle.bridge_config.specs.Readings as spec;

use crate::config::Config;
use crate::fault::ConfigFault;
use crate::key_faults::check_keys;
use crate::making::config_of;
use crate::name_faults::limits_fault;
use crate::tables::target_tables;
use std::alloc::Global;
use toml::Table;

/// The document of these bytes.
fn parse(alloc: Global, bytes: &[u8]) -> Result<Table, ConfigFault>
    ensures { spec.ReadsDocument bytes.now result }
{
    match toml::table_from_slice(alloc, bytes) {
        Ok(document) => Ok(document),
        Err(error) => {
            if error.is_memory() {
                return Err(ConfigFault::Memory);
            }
            Err(ConfigFault::Toml)
        }
    }
}

/// The configuration of a document, or its first fault.
#[tactic(auto, unfolding(crate::specs::ConfigFaults::config_fault))]
fn judge(alloc: Global, document: &Table) -> Result<Config, ConfigFault>
    ensures { spec.Judges (table_view document.now) result }
{
    let tables = target_tables(alloc, document)?;
    check_keys(alloc, document, tables.as_slice())?;
    let config = config_of(alloc, document, tables.as_slice())?;
    match limits_fault(&config) {
        Some(fault) => Err(fault),
        None => Ok(config),
    }
}

/// The configuration of these bytes, or its first fault.
///
/// # Errors
///
/// The first fault of the configuration, each a variant of [`ConfigFault`]; want of memory is one.
///
/// # Example
///
/// ```rust
/// let text = r#"collector = "http://127.0.0.1:4318"
/// rounds = 10
/// listen = "127.0.0.1:9464"
/// [[target]]
/// job = "node"
/// url = "http://127.0.0.1:9100/metrics?x=1"
/// "#;
/// let config = read(alloc, text.as_bytes())?;
/// assert_eq!(rt; (config.rounds, config.targets.len()), (10, 1));
/// ```
pub fn read(alloc: Global, bytes: &[u8]) -> Result<Config, ConfigFault>
    ensures config { IfOk result (IsConfiguration bytes.now) }
    ensures fault { IfErr result (λ fault. (fault ≡ WantOfMemory) ⊎ HasConfigFault bytes.now fault) }
{
    let document = parse(alloc, bytes)?;
    judge(alloc, &document)
}
