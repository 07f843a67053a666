//! What every configuration keeps, for those who use one.
ghost use Rattle.bridge_config.specs.RightConfigs.{NumbersAreRight, ConfigsAreRight};

/// The numbers and the products of every configuration are within their bounds.
pub fn numbers_are_right()
    ensures { NumbersAreRight }
{}

/// Every configuration is right: its numbers, its addresses and the names of its targets.
pub fn configs_are_right()
    ensures { ConfigsAreRight }
{}
