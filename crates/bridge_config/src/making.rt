//! The configuration that a document says, once its keys are right.
ghost use Rattle.std.specs.Prelude.{◌≡◌, None, IfOk, MatchResult, option_map, map};
ghost use Rattle.label_sets.specs.Lists.{first_some};
ghost use Rattle.toml.specs.View.{table_view};
ghost use Rattle.bridge_config.specs.ConfigKeys.{collector_key, honor_key};
ghost use Rattle.bridge_config.specs.Addresses as urls;
ghost use Rattle.bridge_config.specs.Configurations as spec;
ghost use Rattle.bridge_config.specs.KeyFaults.{key_fault};
ghost use Rattle.bridge_config.specs.ConfigFaults as faults;
ghost use Rattle.bridge_config.specs.RightConfigs.{AreRightKeys};
ghost use Rattle.bridge_config.specs.Makings as making;
ghost use Rattle.bridge_config.specs.Tables.{numbered, all_numbered};

use crate::addresses::{address_of, collector_of, instance_of, right_url};
use crate::config::Config;
use crate::fault::ConfigFault;
use crate::key::{JOB, Key, URL};
use crate::tables::TargetTable;
use crate::values::{MOST_DOOR_HOST_BYTES, key_number, key_truth, text_at, value_at};
use bridge_ports::{Address, MILLISECOND, Settings, Target};
use label_sets::{Bytes, List, Memory, Text};
use plain_words::host_and_port;
use std::alloc::Global;
use toml::Table;

/// How targets are visited.
fn settings_of(document: &Table) -> Settings
    requires { AreRightKeys (table_view document.now) }
    ensures { result ≡ making.settings_of (table_view document.now) }
{
    Settings {
        keep: key_number(document, Key::Keep) as u32,
        tries: key_number(document, Key::Tries) as u32,
        limit: key_number(document, Key::SampleLimit) as u32,
        max_page: key_number(document, Key::MaxPage) as u32,
        interval: key_number(document, Key::Interval) * MILLISECOND,
    }
}

/// Where the federation page is served.
#[tactic(auto, unfolding(crate::specs::Configurations::door_in))]
fn door_in(alloc: Global, document: &Table) -> Result<Option<Address>, Memory>
    ensures { IfOk result (λ door. door ≡ spec.door_in (table_view document.now)) }
{
    let text = match value_at(document, Key::Listen.word()) {
        Some(value) => match value.as_str() {
            Some(text) => text,
            None => return Ok(None),
        },
        None => return Ok(None),
    };
    let place = match host_and_port(MOST_DOOR_HOST_BYTES, text.as_bytes()) {
        Some(place) => place,
        None => return Ok(None),
    };
    Ok(Some(Address {
        host: Bytes::from_slice(alloc, place.host)?,
        port: place.port,
        path: Bytes::from_vec(Vec::new(alloc)),
    }))
}

/// Where bodies are posted, or the fault of its URL.
fn collector(alloc: Global, document: &Table) -> Result<Address, ConfigFault>
    ensures { making.MakesCollector (table_view document.now) result }
{
    match right_url(alloc, text_at(document, Key::Collector.word()))? {
        Some(url) => Ok(collector_of(alloc, &url)?),
        None => Err(ConfigFault::Address(0)),
    }
}

/// The target of a table, whose times of pages count or don't, or the fault of its URL.
fn table_target(alloc: Global, honor: bool, found: &TargetTable<'_>) -> Result<Target, ConfigFault>
    requires { making.HasJob (numbered found.now) }
    ensures { making.MakesTarget honor (numbered found.now) result }
{
    let url = match right_url(alloc, text_at(found.table, URL))? {
        Some(url) => url,
        None => return Err(ConfigFault::Address(found.number)),
    };
    let job = Text::from_str(alloc, text_at(found.table, JOB))?;
    let instance = instance_of(alloc, &url)?;
    let instance = Text::from_str(alloc, instance.as_str())?;
    let address = address_of(alloc, &url)?;
    Ok(Target::new(job, instance, address, honor))
}

/// The targets of some tables, or the first fault of a URL.
fn targets_of(
    alloc: Global,
    honor: bool,
    tables: &[TargetTable<'_>],
) -> Result<Vec<Target>, ConfigFault>
    requires { making.HaveJobs (all_numbered tables.now) }
    ensures { making.MakesTargets honor (all_numbered tables.now) result }
{
    let mut targets = Vec::new(alloc);
    for found in tables {
        targets.push(table_target(alloc, honor, found)?)?;
    }
    Ok(targets)
}

/// The targets of a document with these tables, or the first fault of a URL.
fn document_targets(
    alloc: Global,
    document: &Table,
    tables: &[TargetTable<'_>],
) -> Result<Vec<Target>, ConfigFault>
    requires { making.HaveJobs (all_numbered tables.now) }
    ensures { making.MakesTargets (spec.key_truth (table_view document.now) honor_key) (all_numbered tables.now) result }
{
    targets_of(alloc, key_truth(document, Key::Honor), tables)
}

/// The configuration that a document says, or the first fault of an address.
#[tactic(auto, unfolding(crate::specs::Configurations::config_of, crate::specs::ConfigFaults::address_fault))]
pub(crate) fn config_of(
    alloc: Global,
    document: &Table,
    tables: &[TargetTable<'_>],
) -> Result<Config, ConfigFault>
    requires tables { all_numbered tables.now ≡ spec.target_tables (table_view document.now) }
    requires keys { AreRightKeys (table_view document.now) }
    requires jobs { making.HaveJobs (all_numbered tables.now) }
    ensures { making.MakesConfig (table_view document.now) result }
{
    let collector = collector(alloc, document)?;
    let targets = document_targets(alloc, document, tables)?;
    let targets = List::from_vec(targets)?;
    let door = door_in(alloc, document)?;
    Ok(Config {
        settings: settings_of(document),
        rounds: key_number(document, Key::Rounds) as u32,
        scrapers: key_number(document, Key::Scrapers) as u32,
        collector,
        door,
        pages: key_number(document, Key::Pages) as u32,
        targets,
    })
}
