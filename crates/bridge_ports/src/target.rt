//! What is scraped, and for whom.
ghost use Rattle.std.specs.Prelude.{◌≡◌, IfOk, IsUtf8};
ghost use Rattle.bridge_ports.specs.Targets.{IsTextUpTo, have_same_names, most_job_bytes, most_instance_bytes};

use crate::talk::Address;
use label_sets::{Memory, Text};
use std::marker::Model;

/// What is scraped, and the job that it is scraped for (Prometheus, "Jobs and instances").
#[derive(Drop)]
pub struct Target {
    job: Text,
    instance: Text,
    address: Address,
    honor: bool,
}

impl Model for Target {
    ghost use Rattle.bridge_ports.specs.Targets.{Scraped, IsScraped};

    ghost Value = { Scraped };

    ghost view = { λ t. record { job = t.job; instance = t.instance; address = t.address; honor = t.honor } };

    ghost invariant = { λ t.
        IsScraped (record { job = t.job; instance = t.instance; address = t.address; honor = t.honor }) };
}

impl Target {
    ghost use Rattle.bridge_ports.specs.Targets.{IsScraped};

    /// A target of these parts. `honor` says whether times of its pages are taken for those of the
    /// points.
    pub fn new(job: Text, instance: Text, address: Address, honor: bool) -> Target
        requires { IsScraped (record { job = job; instance = instance; address = address; honor = honor }) }
        ensures { result ≡ record { job = job; instance = instance; address = address; honor = honor } }
    {
        Target {
            job,
            instance,
            address,
            honor,
        }
    }

    /// The name of the job: 1 to 256 bytes.
    pub fn job(&self) -> &Text
        ensures same { result.now ≡ self.now.job }
        ensures kept { IsTextUpTo most_job_bytes self.now.job }
    {
        &self.job
    }

    /// Host, colon and port, as they were given: 1 to 262 bytes.
    pub fn instance(&self) -> &Text
        ensures same { result.now ≡ self.now.instance }
        ensures kept { IsTextUpTo most_instance_bytes self.now.instance }
    {
        &self.instance
    }

    /// Where it is asked; the host is UTF-8.
    pub fn address(&self) -> &Address
        ensures same { result.now ≡ self.now.address }
        ensures kept { IsUtf8 self.now.address.host }
    {
        &self.address
    }

    /// Whether times of the page are taken for those of its points.
    pub fn honor(&self) -> bool
        ensures { result ≡ self.now.honor }
    {
        self.honor
    }

    /// Whether it has the job and the instance of another.
    pub fn has_names_of(&self, other: &Target) -> bool
        ensures { result ≡ have_same_names self.now other.now }
    {
        self.job().as_bytes() == other.job().as_bytes()
            && self.instance().as_bytes() == other.instance().as_bytes()
    }

    /// An equal target.
    ///
    /// # Errors
    ///
    /// Want of memory.
    pub fn copy(&self) -> Result<Target, Memory>
        ensures { IfOk result (λ target. target ≡ self.now) }
    {
        Ok(Target {
            job: self.job.copy()?,
            instance: self.instance.copy()?,
            address: self.address.copy()?,
            honor: self.honor,
        })
    }
}
