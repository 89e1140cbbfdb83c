//! Laws of least walks, each as the contract of a function that does nothing.
ghost use Rattle.route_finder.specs.Laws.{FindsLeastWalk, HasOneLeastWalk, PassesNoLinkTwice};

/// What is read off the table comes before every other walk in their order; where nothing is read, there is no walk.
pub fn least_walk_is_least()
    ensures { FindsLeastWalk }
{}

/// There is at most one least walk.
pub fn there_is_one_least_walk()
    ensures { HasOneLeastWalk }
{}

/// The least walk passes no link twice.
pub fn least_walk_passes_no_link_twice()
    ensures { PassesNoLinkTwice }
{}
