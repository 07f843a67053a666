//! What every script keeps.
ghost use Rattle.replay_script.specs.RightScripts.{ScriptsAreRight};

/// A law: the numbers of a script's header are in their ranges, it has some targets but not too many,
/// no two with one job and one instance, and each has right words, one scrape for each round, no more posts
/// than tries, and right replies. It does nothing.
pub fn scripts_are_right()
    ensures { ScriptsAreRight }
{}
