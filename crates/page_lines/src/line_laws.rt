//! Laws about lines, each as the contract of a function that does nothing.
ghost use Rattle.page_lines.specs.Laws.{LinesGoOn, LinesEnd, ToldGoesOn, ToldAreFirst, TooLongIsNext, WholeLinesAreLines};

/// The lines of a page that goes on are its ended lines, and those of its open line that goes on.
pub fn lines_go_on()
    ensures { LinesGoOn }
{}

/// The lines of a page that ends are its ended lines, and its open line unless that is empty.
pub fn lines_end()
    ensures { LinesEnd }
{}

/// What a page told stays told, however it goes on.
pub fn told_goes_on()
    ensures { ToldGoesOn }
{}

/// The lines of which a page told are its first ones, however it goes on.
pub fn told_are_first()
    ensures { ToldAreFirst }
{}

/// Where a page told last that a line is too long, the next line is that, however it goes on.
pub fn too_long_is_next()
    ensures { TooLongIsNext }
{}

/// Lines of which all was told are just what was told.
pub fn whole_lines_are_lines()
    ensures { WholeLinesAreLines }
{}
