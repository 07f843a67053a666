//! The target that is scraped: `h:1` of the job `j`.
use bridge_ports::{Address, Target};
use label_sets::{Bytes, Memory, Text};
use std::alloc::Global;

/// The target.
pub fn target(alloc: Global) -> Result<Target, Memory> {
    let job = Text::from_str(alloc, "j")?;
    let instance = Text::from_str(alloc, "h:1")?;
    let address = Address {
        host: Bytes::from_slice(alloc, "h".as_bytes())?,
        port: 1,
        path: Bytes::from_slice(alloc, b"/metrics")?,
    };
    Ok(Target::new(job, instance, address, false))
}
