//! Targets with the names of earlier ones, and products that are too large.
ghost use Rattle.std.specs.Prelude.{◌≡◌, ◌+◌, ◌≤◌, ◌<◌, [], length, IfSome, option_map};
ghost use Rattle.bridge_ports.specs.Targets.{most_targets};
ghost use Rattle.bridge_config.specs.ConfigFaults as spec;

use crate::config::Config;
use crate::fault::{ConfigFault, Product};
use bridge_ports::Target;

/// The bound of targets by samples of a page.
const SAMPLES_BOUND: u64 = 2_000_000;

/// The bound of scrapers by bytes of a page.
const PAGES_BOUND: u64 = 134_217_728;

/// The bound of targets by bytes of a page.
const HELD_BOUND: u64 = 4_294_967_296;

/// Whether a target has the names of an earlier one.
fn is_named_in(earlier: &[Target], target: &Target) -> bool
    ensures { result ≡ spec.is_named_in earlier.now target.now }
{
    for other in earlier {
        if target.has_names_of(other) {
            return true;
        }
    }
    false
}

/// The place, from 0, of the first target that has the names of an earlier one.
fn first_repeated(targets: &[Target]) -> Option<usize>
    ensures repeated { option_map (λ at. at + 1) result ≡ spec.first_repeated 1 [] targets.now }
    ensures within { IfSome result (λ at. at < length targets.now) }
{
    for (at, target) in targets.iter().enumerate() {
        if is_named_in(&targets[..at], target) {
            return Some(at);
        }
    }
    None
}

/// The first product that is too large.
fn product_too_large(config: &Config) -> Option<Product>
    ensures { result ≡ spec.product_too_large config.now }
{
    let targets = config.targets.len() as u64;
    let max_page = u64::from(config.settings.max_page);
    if targets.saturating_mul(u64::from(config.settings.limit)) > SAMPLES_BOUND {
        return Some(Product::Samples);
    }
    if u64::from(config.scrapers).saturating_mul(max_page) > PAGES_BOUND {
        return Some(Product::Pages);
    }
    if targets.saturating_mul(max_page) > HELD_BOUND {
        return Some(Product::Held);
    }
    None
}

/// The first fault in what a configuration of at most 256 targets says.
#[tactic(auto, unfolding(crate::specs::ConfigFaults::twice_fault, crate::specs::ConfigFaults::product_fault, crate::specs::ConfigFaults::limits_fault))]
pub(crate) fn limits_fault(config: &Config) -> Option<ConfigFault>
    requires { length config.now.targets ≤ most_targets }
    ensures { result ≡ spec.limits_fault config.now }
{
    match first_repeated(config.targets.as_slice()) {
        Some(at) => Some(ConfigFault::Twice(at as u32 + 1)),
        None => product_too_large(config).map(ConfigFault::Product),
    }
}
