//! What the bodies say that are posted for a target: that each series that is gone is told once, and that their tries are
//! those of their texts. These are laws, each carried by a call that changes nothing.
#![tactic(auto)]

ghost use Rattle.body_laws.specs.BodyLaws.{BodiesMarkTheGone, TracksMarkTheGone, TriesComeOfTexts};

/// What is posted for a target is, in order, the texts of trees whose points without a recorded value are those of the
/// series that the scrape before had, without times of their own, and this one lacks, one for each, in the scope that it
/// names. Where the attributes of the target change, they are those of all series of the scrape before, in a part of their
/// own under the attributes that they had.
///
/// So where two scrapes find the page `x 1` and then none, the second body has one such point, that of `x`.
pub fn bodies_mark_the_gone()
    ensures bodies { BodiesMarkTheGone }
    ensures tracks { TracksMarkTheGone }
{}

/// Talks come of texts just where they are the tries of these, in order.
pub fn tries_come_of_texts()
    ensures { TriesComeOfTexts }
{}
