//! Laws of a setup, each as the contract of a function that does nothing.
ghost use Rattle.setup_protocol.specs.Laws.{AcceptedKeepTheirBounds, AcceptedWhereAllPass, EverySetupAskFits, EveryOfferIsAskedBack};
ghost use Rattle.setup_protocol.specs.WayBack.{EveryHopIsAskedBack, EveryRelaxIsFit, EveryReleaseGoesToItsHop};

/// A settled request is accepted exactly where every hop of its route has offered and the destination denies nothing.
pub fn accepted_where_all_hops_and_the_destination_pass()
    ensures { AcceptedWhereAllPass }
{}

/// Each hop of an accepted request has one of its levels; the request's bound on the end-to-end delay is at most the one
/// asked for; and under delay-jitter control the bound of the last hop is at most the jitter bound.
pub fn accepted_requests_keep_their_bounds()
    ensures { AcceptedKeepTheirBounds }
{}

/// Each ask of a setup goes to a hop of the request's route, and meets the conditions on an ask at every link that has
/// that hop's bounds.
pub fn every_ask_fits()
    ensures { EverySetupAskFits }
{}

/// A settled request has at least as many replies on the way back, to denies or to relaxes, as there were offers: each hop
/// that has offered is asked once more.
pub fn every_offer_is_asked_back()
    ensures { EveryOfferIsAskedBack }
{}

/// Before a request settles, each hop that has offered is asked once more, at its link: to give its row back where the
/// request is denied, and to relax to the level that it is allotted where it is accepted.
pub fn every_hop_is_asked_back()
    ensures { EveryHopIsAskedBack }
{}

/// Where each offer tells the reach that a link tells, no relax of a setup is unfit: its level lies from the offered one to
/// the reach told, and its bound before is at most the one that the reserve of that hop carried.
pub fn every_relax_is_fit()
    ensures { EveryRelaxIsFit }
{}

/// Each ask of a teardown releases the channel at a hop of its route, that of the next reply, and meets the conditions on an
/// ask at every link.
pub fn every_release_goes_to_its_hop()
    ensures { EveryReleaseGoesToItsHop }
{}
