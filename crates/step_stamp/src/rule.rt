//! The rule on the word, and the kinds of step that keep it.
//!
//! A link's or a pass's seat is cut in two (`Shows`, `HandsOver`), and the copy joins a seat of the other sort (`Enters`,
//! `Takes`). A pass draws (`Draws`). A load tells what the rule says of a view (`Learns`), or counts as seen (`Sees`). At
//! opening seats are cut from the first one (`OpensLink`, `OpensPass`), and at closing they join for good (`Settles`,
//! `Gathers`). What each does to the views is in `specs/Views.antt`.
use crate::views::{Opening, View};
use atomic_table::{Join, Play, Split, TableRule};
use std::marker::{Brand, PhantomData};

/// The rule.
pub struct StampRule;

impl TableRule<(), View, Opening> for StampRule {
    ghost use Rattle.step_stamp.specs.Rule.{KeepsRule};
    ghost use Rattle.step_stamp.specs.Views.{first_view};

    ghost holds = { λ about s. KeepsRule about s.words s.views };

    ghost first = { λ about. first_view about.links about.actors };
}

/// What a step is about: the number of a link or an actor, and what is drawn at each stamp. The caller of a step picks it.
pub trait Chosen {
    ghost use Rattle.std.specs.Prelude.{ℕ, List};
    ghost use Rattle.step_stamp.specs.declared.marks.Drawn.{Drawn};

    ghost number: { ℕ };

    ghost draws: { ℕ → List Drawn };
}

impl Chosen for Brand {
    ghost use Rattle.std.specs.Prelude.{[]};

    ghost number = { 0 };

    ghost draws = { λ stamp. [] };
}

/// A copy that shows what is known of one link.
pub struct Shows<C: Chosen> {
    of: PhantomData<C>,
}

impl<C: Chosen> Split<View> for Shows<C> {
    ghost use Rattle.step_stamp.specs.Views.{shown};

    ghost left = { λ v. v };

    ghost right = { shown C.number };
}

/// A copy that takes the marks in hand.
pub struct HandsOver<C: Chosen> {
    of: PhantomData<C>,
}

impl<C: Chosen> Split<View> for HandsOver<C> {
    ghost use Rattle.step_stamp.specs.Views.{emptied, handed};

    ghost left = { emptied };

    ghost right = { handed C.number };
}

/// A copy joins a link's seat, whose list takes the mark that it has in hand.
pub struct Enters<C: Chosen> {
    of: PhantomData<C>,
}

impl<C: Chosen> Join<View> for Enters<C> {
    ghost use Rattle.step_stamp.specs.Views.{entered, nobody};

    ghost both = { entered C.number };

    ghost spent = { nobody };
}

/// A copy of a link's seat joins a pass.
pub struct Takes<C: Chosen> {
    of: PhantomData<C>,
}

impl<C: Chosen> Join<View> for Takes<C> {
    ghost use Rattle.step_stamp.specs.Views.{taken, nobody};

    ghost both = { taken C.number };

    ghost spent = { nobody };
}

/// A draw. It tells that the pass has seen nothing above what the word was, and the stamps of all its marks; and that the
/// stamp is in its range.
pub struct Draws<C: Chosen> {
    of: PhantomData<C>,
}

impl<C: Chosen> Play<(), View> for Draws<C> {
    ghost use Rattle.std.specs.Prelude.{◌≡◌, ◌+◌, ◌*◌, ◌^◌, ◌≤◌};
    ghost use Rattle.step_stamp.specs.Rule.{HasSeen};
    ghost use Rattle.step_stamp.specs.Views.{drew};

    ghost then = { λ step me found after. (after ≡ (drew (C.draws (found + 1)) (found + 1) me.0, me.1)) × (me.0.seen ≤ found) × (found + 1 ≤ 65 * 2 ^ 40) × HasSeen me.0 };
}

/// A load that tells what the rule says of the view.
pub struct Learns;

impl Play<(), View> for Learns {
    ghost use Rattle.std.specs.Prelude.{◌≡◌};
    ghost use Rattle.step_stamp.specs.Rule.{Learnt};

    ghost then = { λ step me found after. (after ≡ me) × Learnt me.0 };
}

/// A load that counts as seen.
pub struct Sees;

impl Play<(), View> for Sees {
    ghost use Rattle.std.specs.Prelude.{◌≡◌, ◌≤◌};
    ghost use Rattle.step_stamp.specs.Views.{saw};

    ghost then = { λ step me found after. (after ≡ (saw found me.0, me.1)) × (me.0.seen ≤ found) };
}

/// The seat of a link is cut from the first seat.
pub struct OpensLink<C: Chosen> {
    of: PhantomData<C>,
}

impl<C: Chosen> Split<View> for OpensLink<C> {
    ghost use Rattle.step_stamp.specs.Views.{less_link, new_link};

    ghost left = { less_link C.number };

    ghost right = { new_link C.number };
}

/// The pass of an actor is cut from the first seat.
pub struct OpensPass<C: Chosen> {
    of: PhantomData<C>,
}

impl<C: Chosen> Split<View> for OpensPass<C> {
    ghost use Rattle.step_stamp.specs.Views.{less_actor, new_pass};

    ghost left = { less_actor C.number };

    ghost right = { new_pass C.number };
}

/// The seat of a link joins a pass.
pub struct Settles<C: Chosen> {
    of: PhantomData<C>,
}

impl<C: Chosen> Join<View> for Settles<C> {
    ghost use Rattle.step_stamp.specs.Views.{settled, nobody};

    ghost both = { settled C.number };

    ghost spent = { nobody };
}

/// A pass joins a pass.
pub struct Gathers;

impl Join<View> for Gathers {
    ghost use Rattle.step_stamp.specs.Views.{gathered, nobody};

    ghost both = { gathered };

    ghost spent = { nobody };
}
